// A lent record as the core has it: a flag byte is set if it is not 0.
#![tactic(auto, unfolding(crate::specs::Records::raised_vector, crate::specs::Records::raised_code, crate::specs::Records::raised_flow, crate::specs::Records::raised_queue, crate::specs::Records::raised_fault, crate::specs::Records::raised_resume, crate::specs::Records::raised_cpu, crate::specs::Records::raised, numbers::specs::Numbers::flag))]

ghost use Rattle.std.specs.Prelude.{◌≡◌};
ghost use Rattle.records.specs.Records.{raised_vector, raised_code, raised_flow, raised_queue, raised_fault, raised_resume, raised_cpu, raised};

use crate::{LentCode, LentCore, LentCpu, LentFault, LentFlow, LentQueue, LentResume, LentVector};
use cpu::{Cpu, Fault, Flow, OptionalCode, OptionalVector, Queue, Resume};
use memory::Core;

impl From<LentVector> for OptionalVector {
    ghost from_gives = { λ v r. r ≡ raised_vector v };

    fn from(v: LentVector) -> OptionalVector {
        OptionalVector {
            some: v.some != 0,
            value: v.value,
        }
    }
}

impl From<LentCode> for OptionalCode {
    ghost from_gives = { λ v r. r ≡ raised_code v };

    fn from(v: LentCode) -> OptionalCode {
        OptionalCode {
            some: v.some != 0,
            value: v.value,
        }
    }
}

impl From<LentFlow> for Flow {
    ghost from_gives = { λ f r. r ≡ raised_flow f };

    fn from(f: LentFlow) -> Flow {
        Flow {
            ppc: f.ppc,
            pc: f.pc,
            vbr: f.vbr,
            ir: f.ir,
            fpiar: f.fpiar,
            cpu_type: f.cpu_type,
            run_mode: f.run_mode,
            stopped: f.stopped,
            exception_processing: f.exception_processing != 0,
            change_of_flow: f.change_of_flow != 0,
            loop_mode: f.loop_mode != 0,
            cycles_remaining: f.cycles_remaining,
        }
    }
}

impl From<LentQueue> for Queue {
    ghost from_gives = { λ q r. r ≡ raised_queue q };

    fn from(q: LentQueue) -> Queue {
        let words = q.prefetch_queue; // an array has to be a variable before it is part of a literal
        Queue {
            prefetch_queue: words,
            prefetch_count: q.prefetch_count,
            pending_sync_clocks: q.pending_sync_clocks,
            precise_bus: q.precise_bus != 0,
        }
    }
}

impl From<LentFault> for Fault {
    ghost from_gives = { λ f r. r ≡ raised_fault f };

    fn from(f: LentFault) -> Fault {
        Fault {
            instruction_exception_vector: f.instruction_exception_vector.into(),
            last_exception_vector: f.last_exception_vector.into(),
            pending_fault_cause: f.pending_fault_cause,
            mmu_fc_override: f.mmu_fc_override.into(),
            pending_fault_wdata: f.pending_fault_wdata,
        }
    }
}

impl From<LentResume> for Resume {
    ghost from_gives = { λ x r. r ≡ raised_resume x };

    fn from(x: LentResume) -> Resume {
        let registers = x.dar; // the same
        Resume {
            some: x.some != 0,
            pc: x.pc,
            sr: x.sr,
            dar: registers,
        }
    }
}

impl From<LentCpu> for Cpu {
    ghost from_gives = { λ c r. r ≡ raised_cpu c };

    fn from(c: LentCpu) -> Cpu {
        Cpu {
            regs: c.regs,
            flow: c.flow.into(),
            flags: c.flags,
            queue: c.queue.into(),
            fault: c.fault.into(),
            fault_resume: c.fault_resume.into(),
        }
    }
}

impl From<LentCore> for Core {
    ghost from_gives = { λ c r. r ≡ raised c };

    fn from(c: LentCore) -> Core {
        Core {
            cpu: c.cpu.into(),
            bus: c.bus,
        }
    }
}
