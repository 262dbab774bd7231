// A record of the core as it is lent: a flag is 1 or 0.
#![tactic(auto, unfolding(crate::specs::Records::lowered_vector, crate::specs::Records::lowered_code, crate::specs::Records::lowered_flow, crate::specs::Records::lowered_queue, crate::specs::Records::lowered_fault, crate::specs::Records::lowered_resume, crate::specs::Records::lowered_cpu, crate::specs::Records::lowered))]

ghost use Rattle.std.specs.Prelude.{◌≡◌};
ghost use Rattle.records.specs.Records.{lowered_vector, lowered_code, lowered_flow, lowered_queue, lowered_fault, lowered_resume, lowered_cpu, lowered};

use crate::{LentCode, LentCore, LentCpu, LentFault, LentFlow, LentQueue, LentResume, LentVector};
use cpu::{Cpu, Fault, Flow, OptionalCode, OptionalVector, Queue, Resume};
use memory::Core;

impl From<OptionalVector> for LentVector {
    ghost from_gives = { λ v r. r ≡ lowered_vector v };

    fn from(v: OptionalVector) -> LentVector {
        LentVector {
            some: v.some as u8,
            value: v.value,
        }
    }
}

impl From<OptionalCode> for LentCode {
    ghost from_gives = { λ v r. r ≡ lowered_code v };

    fn from(v: OptionalCode) -> LentCode {
        LentCode {
            some: v.some as u8,
            value: v.value,
        }
    }
}

impl From<Flow> for LentFlow {
    ghost from_gives = { λ f r. r ≡ lowered_flow f };

    fn from(f: Flow) -> LentFlow {
        LentFlow {
            ppc: f.ppc,
            pc: f.pc,
            vbr: f.vbr,
            ir: f.ir,
            fpiar: f.fpiar,
            cpu_type: f.cpu_type,
            run_mode: f.run_mode,
            stopped: f.stopped,
            exception_processing: f.exception_processing as u8,
            change_of_flow: f.change_of_flow as u8,
            loop_mode: f.loop_mode as u8,
            cycles_remaining: f.cycles_remaining,
        }
    }
}

impl From<Queue> for LentQueue {
    ghost from_gives = { λ q r. r ≡ lowered_queue q };

    fn from(q: Queue) -> LentQueue {
        let words = q.prefetch_queue; // an array has to be a variable before it is part of a literal
        LentQueue {
            prefetch_queue: words,
            prefetch_count: q.prefetch_count,
            pending_sync_clocks: q.pending_sync_clocks,
            precise_bus: q.precise_bus as u8,
        }
    }
}

impl From<Fault> for LentFault {
    ghost from_gives = { λ f r. r ≡ lowered_fault f };

    fn from(f: Fault) -> LentFault {
        LentFault {
            instruction_exception_vector: f.instruction_exception_vector.into(),
            last_exception_vector: f.last_exception_vector.into(),
            pending_fault_cause: f.pending_fault_cause,
            mmu_fc_override: f.mmu_fc_override.into(),
            pending_fault_wdata: f.pending_fault_wdata,
        }
    }
}

impl From<Resume> for LentResume {
    ghost from_gives = { λ x r. r ≡ lowered_resume x };

    fn from(x: Resume) -> LentResume {
        let registers = x.dar; // the same
        LentResume {
            some: x.some as u8,
            pc: x.pc,
            sr: x.sr,
            dar: registers,
        }
    }
}

impl From<Cpu> for LentCpu {
    ghost from_gives = { λ c r. r ≡ lowered_cpu c };

    fn from(c: Cpu) -> LentCpu {
        LentCpu {
            regs: c.regs,
            flow: c.flow.into(),
            flags: c.flags,
            queue: c.queue.into(),
            fault: c.fault.into(),
            fault_resume: c.fault_resume.into(),
        }
    }
}

impl From<Core> for LentCore {
    ghost from_gives = { λ c r. r ≡ lowered c };

    fn from(c: Core) -> LentCore {
        LentCore {
            cpu: c.cpu.into(),
            bus: c.bus,
        }
    }
}
