// A fresh record.
ghost use Rattle.std.specs.Prelude.{◌≡◌};
ghost use Rattle.cpu.specs.Fresh.{fresh_cpu, fresh_regs, fresh_flow, fresh_flags, fresh_queue, fresh_fault, fresh_resume};

use crate::{Cpu, Fault, Flags, Flow, OptionalCode, OptionalVector, Queue, Regs, Resume};

// A record as `new()` and then `set_cpu_type` leave it.
#[tactic(auto, unfolding(crate::specs::Fresh::fresh_cpu))]
pub fn fresh(kind: u8) -> Cpu
    ensures { result ≡ fresh_cpu kind }
{
    Cpu {
        regs: fresh_regs(),
        flow: fresh_flow(kind),
        flags: fresh_flags(),
        queue: fresh_queue(),
        fault: fresh_fault(),
        fault_resume: fresh_resume(),
    }
}

#[tactic(auto, unfolding(crate::specs::Fresh::fresh_regs))]
fn fresh_regs() -> Regs
    ensures { result ≡ fresh_regs }
{
    Regs {
        dar: [0u32; 16],
        dar_save: [0u32; 16],
        sp: [0u32; 8],
    }
}

#[tactic(auto, unfolding(crate::specs::Fresh::fresh_flow))]
fn fresh_flow(kind: u8) -> Flow
    ensures { result ≡ fresh_flow kind }
{
    Flow {
        ppc: 0,
        pc: 0,
        vbr: 0,
        ir: 0,
        fpiar: 0,
        cpu_type: kind,
        run_mode: 0,
        stopped: 0,
        exception_processing: false,
        change_of_flow: false,
        loop_mode: false,
        cycles_remaining: 0,
    }
}

// Supervisor state, all interrupts masked, Z clear.
#[tactic(auto, unfolding(crate::specs::Fresh::fresh_flags))]
fn fresh_flags() -> Flags
    ensures { result ≡ fresh_flags }
{
    Flags {
        t1_flag: 0,
        t0_flag: 0,
        s_flag: 4,
        m_flag: 0,
        x_flag: 0,
        n_flag: 0,
        not_z_flag: 1,
        v_flag: 0,
        c_flag: 0,
        int_mask: 1792,
        int_level: 0,
        sr_save: 0,
    }
}

#[tactic(auto, unfolding(crate::specs::Fresh::fresh_queue))]
fn fresh_queue() -> Queue
    ensures { result ≡ fresh_queue }
{
    Queue {
        prefetch_queue: [0u16; 2],
        prefetch_count: 0,
        pending_sync_clocks: 0,
        precise_bus: true,
    }
}

#[tactic(auto, unfolding(crate::specs::Fresh::fresh_fault))]
fn fresh_fault() -> Fault
    ensures { result ≡ fresh_fault }
{
    Fault {
        instruction_exception_vector: OptionalVector {
            some: false,
            value: 0,
        },
        last_exception_vector: OptionalVector {
            some: false,
            value: 0,
        },
        pending_fault_cause: 0,
        mmu_fc_override: OptionalCode {
            some: false,
            value: 0,
        },
        pending_fault_wdata: 0,
    }
}

#[tactic(auto, unfolding(crate::specs::Fresh::fresh_resume))]
fn fresh_resume() -> Resume
    ensures { result ≡ fresh_resume }
{
    Resume {
        some: false,
        pc: 0,
        sr: 0,
        dar: [0u32; 16],
    }
}
