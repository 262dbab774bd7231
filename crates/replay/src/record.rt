// The words of a case and the record and bus of a core: word by word, at fixed places. They are the format of data/sample.bin, which
// oracle/sample.py writes by the same numbers, so they stand here as numbers too.
ghost use Rattle.std.specs.Prelude.{◌+◌, ◌≤◌, length};

use cpu::{Cpu, Fault, Flags, Flow, OptionalCode, OptionalVector, Queue, Regs, Resume};
use memory::{Bus, Core};

// So many words of a case, from a place on.
fn row<const N: usize>(w: &[u32; 136], at: usize) -> [u32; N]
    requires { at + N ≤ 136 }
{
    let mut row = [0; N];
    row.copy_from_slice(&w[at..at + N]);
    row
}

// A row laid over the words of a case, from a place on.
fn put_row(w: &mut [u32; 136], at: usize, row: &[u32])
    requires { at + length row.now ≤ 136 }
{
    w[at..at + row.len()].copy_from_slice(row);
}

// A value that means nothing where its flag is false is 0.
fn kept(some: bool, n: u32) -> u32 {
    if some { n } else { 0 }
}

fn regs_of(w: &[u32; 136]) -> Regs {
    Regs {
        dar: row(w, 0),
        dar_save: row(w, 16),
        sp: row(w, 32),
    }
}

fn flow_of(w: &[u32; 136]) -> Flow {
    Flow {
        ppc: w[40],
        pc: w[41],
        vbr: w[42],
        ir: w[43],
        fpiar: w[44],
        cpu_type: (w[45] % 256) as u8,
        run_mode: w[46],
        stopped: w[47],
        exception_processing: w[48] != 0,
        change_of_flow: w[49] != 0,
        loop_mode: w[50] != 0,
        cycles_remaining: w[51].cast_signed(),
    }
}

fn flags_of(w: &[u32; 136]) -> Flags {
    Flags {
        t1_flag: w[52],
        t0_flag: w[53],
        s_flag: w[54],
        m_flag: w[55],
        x_flag: w[56],
        n_flag: w[57],
        not_z_flag: w[58],
        v_flag: w[59],
        c_flag: w[60],
        int_mask: w[61],
        int_level: w[62],
        sr_save: (w[63] % 0x10000) as u16,
    }
}

fn queue_of(w: &[u32; 136]) -> Queue {
    Queue {
        prefetch_queue: [(w[64] % 0x10000) as u16, (w[65] % 0x10000) as u16],
        prefetch_count: (w[66] % 256) as u8,
        pending_sync_clocks: w[67],
        precise_bus: w[68] != 0,
    }
}

fn vector_of(some: u32, value: u32) -> OptionalVector {
    OptionalVector {
        some: some != 0,
        value,
    }
}

fn code_of(some: u32, value: u32) -> OptionalCode {
    OptionalCode {
        some: some != 0,
        value: (value % 256) as u8,
    }
}

fn fault_of(w: &[u32; 136]) -> Fault {
    Fault {
        instruction_exception_vector: vector_of(w[69], w[70]),
        last_exception_vector: vector_of(w[71], w[72]),
        pending_fault_cause: (w[73] % 256) as u8,
        mmu_fc_override: code_of(w[74], w[75]),
        pending_fault_wdata: w[76],
    }
}

fn resume_of(w: &[u32; 136]) -> Resume {
    Resume {
        some: w[77] != 0,
        pc: w[78],
        sr: (w[79] % 0x10000) as u16,
        dar: row(w, 80),
    }
}

fn cpu_of(w: &[u32; 136]) -> Cpu {
    Cpu {
        regs: regs_of(w),
        flow: flow_of(w),
        flags: flags_of(w),
        queue: queue_of(w),
        fault: fault_of(w),
        fault_resume: resume_of(w),
    }
}

fn bus_of(w: &[u32; 136]) -> Bus {
    Bus {
        base: w[96],
        windows: w[97],
        starts: row(w, 98),
        lengths: row(w, 106),
        responses: row(w, 114),
        events: w[122],
    }
}

// The core that a case starts from.
pub(crate) fn core_of(w: &[u32; 136]) -> Core {
    Core {
        cpu: cpu_of(w),
        bus: bus_of(w),
    }
}

fn put_regs(w: &mut [u32; 136], c: Regs) {
    put_row(w, 0, &c.dar);
    put_row(w, 16, &c.dar_save);
    put_row(w, 32, &c.sp);
}

fn put_flow(w: &mut [u32; 136], c: Flow) {
    w[40] = c.ppc;
    w[41] = c.pc;
    w[42] = c.vbr;
    w[43] = c.ir;
    w[44] = c.fpiar;
    w[45] = u32::from(c.cpu_type);
    w[46] = c.run_mode;
    w[47] = c.stopped;
    w[48] = u32::from(c.exception_processing);
    w[49] = u32::from(c.change_of_flow);
    w[50] = u32::from(c.loop_mode);
    w[51] = c.cycles_remaining.cast_unsigned();
}

fn put_flags(w: &mut [u32; 136], c: Flags) {
    w[52] = c.t1_flag;
    w[53] = c.t0_flag;
    w[54] = c.s_flag;
    w[55] = c.m_flag;
    w[56] = c.x_flag;
    w[57] = c.n_flag;
    w[58] = c.not_z_flag;
    w[59] = c.v_flag;
    w[60] = c.c_flag;
    w[61] = c.int_mask;
    w[62] = c.int_level;
    w[63] = u32::from(c.sr_save);
}

fn put_queue(w: &mut [u32; 136], c: Queue) {
    let q = c.prefetch_queue;
    w[64] = u32::from(q[0]);
    w[65] = u32::from(q[1]);
    w[66] = u32::from(c.prefetch_count);
    w[67] = c.pending_sync_clocks;
    w[68] = u32::from(c.precise_bus);
}

fn put_fault(w: &mut [u32; 136], c: Fault) {
    let iv = c.instruction_exception_vector;
    w[69] = u32::from(iv.some);
    w[70] = kept(iv.some, iv.value);
    let lv = c.last_exception_vector;
    w[71] = u32::from(lv.some);
    w[72] = kept(lv.some, lv.value);
    w[73] = u32::from(c.pending_fault_cause);
    let fc = c.mmu_fc_override;
    w[74] = u32::from(fc.some);
    w[75] = kept(fc.some, u32::from(fc.value));
    w[76] = c.pending_fault_wdata;
}

fn put_resume(w: &mut [u32; 136], c: Resume) {
    let some = c.some;
    w[77] = u32::from(some);
    w[78] = kept(some, c.pc);
    w[79] = kept(some, u32::from(c.sr));
    let dar = if some { c.dar } else { [0; 16] };
    put_row(w, 80, &dar);
}

fn put_bus(w: &mut [u32; 136], c: Bus) {
    w[96] = c.base;
    w[97] = c.windows;
    put_row(w, 98, &c.starts);
    put_row(w, 106, &c.lengths);
    put_row(w, 114, &c.responses);
    w[122] = c.events;
}

fn put_cpu(w: &mut [u32; 136], c: Cpu) {
    put_regs(w, c.regs);
    put_flow(w, c.flow);
    put_flags(w, c.flags);
    put_queue(w, c.queue);
    put_fault(w, c.fault);
    put_resume(w, c.fault_resume);
}

// The core that a call left, laid over the words of its case.
pub(crate) fn put_core(w: &mut [u32; 136], m: Core) {
    put_cpu(w, m.cpu);
    put_bus(w, m.bus);
}
