// The lent record: the record and the bus as a program in another language has them, and the way to the core's record and back. Where those of
// `cpu` have bools they have numbers, so that every value of every field has a meaning: a flag byte is set if it is not 0. It uses `cpu`,
// `memory` and `numbers`; `attempts` and `lent` use it.
#![tactic(auto)]

use cpu::{Flags, Regs};
use memory::Bus;

pub mod raise; // a lent record as the core has it
pub mod lower; // a record of the core as it is lent

// These structs cross C: there an Option is a flag and a value, a kind and a cause are numbers, and a queue has a count.
#[repr(C)]
#[derive(Clone, Copy)]
pub struct LentVector {
    pub some: u8,
    pub value: u32,
}

#[repr(C)]
#[derive(Clone, Copy)]
pub struct LentCode {
    pub some: u8,
    pub value: u8,
}

#[repr(C)]
#[derive(Clone, Copy)]
pub struct LentFlow {
    pub ppc: u32,
    pub pc: u32,
    pub vbr: u32,
    pub ir: u32,
    pub fpiar: u32,
    pub cpu_type: u8,
    pub run_mode: u32,
    pub stopped: u32,
    pub exception_processing: u8,
    pub change_of_flow: u8,
    pub loop_mode: u8,
    pub cycles_remaining: i32,
}

#[repr(C)]
#[derive(Clone, Copy)]
pub struct LentQueue {
    pub prefetch_queue: [u16; 2],
    pub prefetch_count: u8,
    pub pending_sync_clocks: u32,
    pub precise_bus: u8,
}

#[repr(C)]
#[derive(Clone, Copy)]
pub struct LentFault {
    pub instruction_exception_vector: LentVector,
    pub last_exception_vector: LentVector,
    pub pending_fault_cause: u8,
    pub mmu_fc_override: LentCode,
    pub pending_fault_wdata: u32,
}

#[repr(C)]
#[derive(Clone, Copy)]
pub struct LentResume {
    pub some: u8,
    pub pc: u32,
    pub sr: u16,
    pub dar: [u32; 16],
}

#[repr(C)]
#[derive(Clone, Copy)]
pub struct LentCpu {
    pub regs: Regs,
    pub flow: LentFlow,
    pub flags: Flags,
    pub queue: LentQueue,
    pub fault: LentFault,
    pub fault_resume: LentResume,
}

#[repr(C)]
#[derive(Clone, Copy)]
pub struct LentCore {
    pub cpu: LentCpu,
    pub bus: Bus,
}
