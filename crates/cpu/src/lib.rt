// The record of the processor: the fields of `CpuCore` that the taken functions read or write, by their Rust names, in six
// groups, and the one-step functions on it. Everything is by value: a function takes the record and hands it back. It uses
// `types`; `status` and `pending` add the steps on the status and on what asks for an exception, and of the plain way nobody above
// those three stores to a field.
//
// The record crosses C by value (`leaves`), so it has no Option and no enum, which have no layout there: an option of the Rust is a
// struct with a flag and a value, where the flag is false the value means nothing; a fault cause is a number, 0 for none, and a kind is
// one. Masks follow from the kind and are no fields.
#![tactic(auto)]

pub mod clocks; // clocks that wait to be reported, and the prefetch queue
pub mod fields; // registers, flow and faults, one field at a time
pub mod fresh; // a record as `new()` and `set_cpu_type` leave it

// C: no Option has a layout there, and no generic struct.
#[repr(C)]
#[derive(Clone, Copy)]
pub struct OptionalVector {
    pub some: bool,
    pub value: u32,
}

// C: the same.
#[repr(C)]
#[derive(Clone, Copy)]
pub struct OptionalCode {
    pub some: bool,
    pub value: u8,
}

#[repr(C)]
#[derive(Clone, Copy)]
pub struct Regs {
    pub dar: [u32; 16],
    pub dar_save: [u32; 16],
    pub sp: [u32; 8],
}

#[repr(C)]
#[derive(Clone, Copy)]
pub struct Flow {
    pub ppc: u32,
    pub pc: u32,
    pub vbr: u32,
    pub ir: u32,
    pub fpiar: u32,
    pub cpu_type: u8,
    pub run_mode: u32,
    pub stopped: u32,
    pub exception_processing: bool,
    pub change_of_flow: bool,
    pub loop_mode: bool,
    pub cycles_remaining: i32,
}

#[repr(C)]
#[derive(Clone, Copy)]
pub struct Flags {
    pub t1_flag: u32,
    pub t0_flag: u32,
    pub s_flag: u32,
    pub m_flag: u32,
    pub x_flag: u32,
    pub n_flag: u32,
    pub not_z_flag: u32,
    pub v_flag: u32,
    pub c_flag: u32,
    pub int_mask: u32,
    pub int_level: u32,
    pub sr_save: u16,
}

// C: two words of fixed memory, and how many of them are queued.
#[repr(C)]
#[derive(Clone, Copy)]
pub struct Queue {
    pub prefetch_queue: [u16; 2],
    pub prefetch_count: u8,
    pub pending_sync_clocks: u32,
    pub precise_bus: bool,
}

#[repr(C)]
#[derive(Clone, Copy)]
pub struct Fault {
    pub instruction_exception_vector: OptionalVector,
    pub last_exception_vector: OptionalVector,
    pub pending_fault_cause: u8,
    pub mmu_fc_override: OptionalCode,
    pub pending_fault_wdata: u32,
}

// C: the same, with what is kept for the end of a faulted instruction beside the flag.
#[repr(C)]
#[derive(Clone, Copy)]
pub struct Resume {
    pub some: bool,
    pub pc: u32,
    pub sr: u16,
    pub dar: [u32; 16],
}

#[repr(C)]
#[derive(Clone, Copy)]
pub struct Cpu {
    pub regs: Regs,
    pub flow: Flow,
    pub flags: Flags,
    pub queue: Queue,
    pub fault: Fault,
    pub fault_resume: Resume,
}
