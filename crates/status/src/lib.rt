// The status register and the stack banks: the status composed from the flags and put back under the kind's mask, what a faulted
// instruction keeps of it, and A7 exchanged with the saved pointers when S and M change. It uses `cpu` and `types` and stores to
// the record's fields, as `cpu` does; `frames` and everything above use it.
#![tactic(auto)]

use cpu::{Cpu, Flags, Resume};

pub mod banks; // the stack pointers of user, interrupt and master state

ghost use Rattle.std.specs.Prelude.{◌≡◌};
ghost use Rattle.status.specs.Status.{get_sr, compose, decompose, s_of, m_of, m_under_s, set_sr_noint_nosp, put_back_sr, restore_sr, set_ccr, clear_trace, set_int_mask, clear_m, m_is_set, keep_resume};

// `get_sr`: the status register, composed from the flags.
#[tactic(auto, unfolding(crate::specs::Status::get_sr))]
pub fn get_sr(c: Cpu) -> u16
    ensures { result ≡ get_sr c }
{
    compose(c.flags)
}

// The status register of the flags; no `From`, since both types are of other crates.
#[tactic(auto, unfolding(crate::specs::Status::compose))]
pub fn compose(f: Flags) -> u16
    ensures { result ≡ compose f }
{
    let system = f.t1_flag / 0x8000 % 2 * 0x8000
        + f.t0_flag / 0x4000 % 2 * 0x4000
        + f.s_flag / 4 % 2 * 0x2000
        + f.m_flag / 2 % 2 * 0x1000
        + f.int_mask / 256 % 8 * 256;
    let codes = f.x_flag / 256 % 2 * 16
        + f.n_flag / 128 % 2 * 8
        + f.v_flag / 128 % 2 * 2
        + f.c_flag / 256 % 2;
    let z = if f.not_z_flag == 0 { 4 } else { 0 };
    (system + codes + z) as u16
}

// The flags of a status: T1, T0, the mask and the condition codes, each flag 0 or the bit that `get_sr` tests, with the S and
// M flags given. What is no part of the status is kept.
#[tactic(auto, unfolding(crate::specs::Status::decompose))]
fn decompose(f: Flags, w: u16, s: u32, m: u32) -> Flags
    ensures { result ≡ decompose f w s m }
{
    let n = u32::from(w);
    Flags {
        t1_flag: n / 0x8000 % 2 * 0x8000,
        t0_flag: n / 0x4000 % 2 * 0x4000,
        s_flag: s,
        m_flag: m,
        x_flag: n / 16 % 2 * 256,
        n_flag: n / 8 % 2 * 128,
        not_z_flag: 1 - n / 4 % 2,
        v_flag: n / 2 % 2 * 128,
        c_flag: n % 2 * 256,
        int_mask: n / 256 % 8 * 256,
        ..f
    }
}

// The S flag of a status: 0 or 4.
fn s_of(w: u16) -> u32
    ensures { result ≡ s_of w }
{
    u32::from(w) / 0x2000 % 2 * 4
}

// The M flag of a status: 0 or 2.
fn m_of(w: u16) -> u32
    ensures { result ≡ m_of w }
{
    u32::from(w) / 0x1000 % 2 * 2
}

// M counts only where S is set.
#[tactic(auto, unfolding(crate::specs::Status::m_under_s))]
fn m_under_s(w: u16) -> u32
    ensures { result ≡ m_under_s w }
{
    if s_of(w) == 0 { 0 } else { m_of(w) }
}

// `set_sr_noint_nosp`: the status under the kind's mask, M cleared where S is clear, no stack switched.
#[tactic(auto, unfolding(crate::specs::Status::set_sr_noint_nosp, cpu::specs::Fields::kind_of))]
pub fn set_sr_noint_nosp(mut c: Cpu, sr: u16) -> Cpu
    ensures { result ≡ set_sr_noint_nosp c sr }
{
    let w = types::mask_status(c.flow.cpu_type, sr);
    c.flags = decompose(c.flags, w, s_of(w), m_under_s(w));
    c
}

// The status put back by a return: under the kind's mask, M as stacked and not only under S, no stack switched.
#[tactic(auto, unfolding(crate::specs::Status::put_back_sr, cpu::specs::Fields::kind_of))]
pub fn put_back_sr(mut c: Cpu, sr: u16) -> Cpu
    ensures { result ≡ put_back_sr c sr }
{
    let w = types::mask_status(c.flow.cpu_type, sr);
    c.flags = decompose(c.flags, w, s_of(w), m_of(w));
    c
}

// The status saved before the instruction is put back.
#[tactic(auto, unfolding(crate::specs::Status::restore_sr))]
pub fn restore_sr(c: Cpu) -> Cpu
    ensures { result ≡ restore_sr c }
{
    set_sr_noint_nosp(c, c.flags.sr_save)
}

// `set_ccr_internal`: the five condition codes
#[tactic(auto, unfolding(crate::specs::Status::set_ccr))]
pub fn set_ccr_internal(mut c: Cpu, ccr: u8) -> Cpu
    ensures { result ≡ set_ccr c ccr }
{
    let n = u32::from(ccr);
    c.flags.x_flag = n / 16 % 2 * 256;
    c.flags.n_flag = n / 8 % 2 * 128;
    c.flags.not_z_flag = 1 - n / 4 % 2;
    c.flags.v_flag = n / 2 % 2 * 128;
    c.flags.c_flag = n % 2 * 256;
    c
}

// an entry clears both trace flags
#[tactic(auto, unfolding(crate::specs::Status::clear_trace))]
pub fn clear_trace(mut c: Cpu) -> Cpu
    ensures { result ≡ clear_trace c }
{
    c.flags.t1_flag = 0;
    c.flags.t0_flag = 0;
    c
}

// the interrupt mask is the level
#[tactic(auto, unfolding(crate::specs::Status::set_int_mask))]
pub fn set_int_mask(mut c: Cpu, level: u8) -> Cpu
    ensures { result ≡ set_int_mask c level }
{
    c.flags.int_mask = u32::from(level) % 8 * 256;
    c
}

// M is cleared and the stack stays: kind 11
#[tactic(auto, unfolding(crate::specs::Status::clear_m))]
pub fn clear_m(mut c: Cpu) -> Cpu
    ensures { result ≡ clear_m c }
{
    c.flags.m_flag = 0;
    c
}

// whether M is set
#[tactic(auto, unfolding(crate::specs::Status::m_is_set))]
pub fn m_is_set(c: Cpu) -> bool
    ensures { result ≡ m_is_set c }
{
    c.flags.m_flag != 0
}

// The registers, PC and the status are kept for the end of the faulted instruction, and the record is faulted.
#[tactic(auto, unfolding(crate::specs::Status::keep_resume))]
pub fn keep_resume(mut c: Cpu) -> Cpu
    ensures { result ≡ keep_resume c }
{
    let registers = c.regs.dar;
    c.fault_resume = Resume {
        some: true,
        pc: c.flow.pc,
        sr: get_sr(c),
        dar: registers,
    };
    c.flow.run_mode = 1;
    c
}
