// Status words of error frames: each a sum of its fields. A function code is one of 3 bits, and a cause the record's byte, any number.
ghost use Rattle.std.specs.Prelude.{◌≡◌, ◌*◌, ◌<◌, ◌≤◌, nat_le};
ghost use Rattle.types.specs.Kinds.{pick};
ghost use Rattle.frames.specs.Codes.{function_code, is_supervisor, state_code, fault_code, fault_word, ssw020, is_cause, ssw040, wb3s, cause_bit, fslw060};

use cpu::Cpu;

#[tactic(auto, unfolding(crate::specs::Codes::function_code))]
fn function_code(supervisor: bool, instruction: bool) -> u32
    ensures { (result ≡ function_code supervisor instruction) × (result < 8) }
{
    match (supervisor, instruction) {
        (true, true) => 6,
        (true, false) => 5,
        (false, true) => 2,
        (false, false) => 1,
    }
}

#[tactic(auto, unfolding(crate::specs::Codes::is_supervisor))]
fn is_supervisor(c: Cpu) -> bool
    ensures { result ≡ is_supervisor c }
{
    c.flags.s_flag / 4 % 2 == 1
}

// The function code of an address error.
#[tactic(auto, unfolding(crate::specs::Codes::state_code))]
pub(crate) fn state_code(c: Cpu, instruction: bool) -> u32
    ensures { (result ≡ state_code c instruction) × (result < 8) }
{
    function_code(is_supervisor(c), instruction)
}

// The function code of a bus error.
#[tactic(auto, unfolding(crate::specs::Codes::fault_code))]
pub(crate) fn fault_code(c: Cpu, instruction: bool) -> u32
    ensures { (result ≡ fault_code c instruction) × (result < 8) }
{
    match cpu::fields::fc_override(c) {
        Some(code) => u32::from(code % 8),
        None => state_code(c, instruction),
    }
}

// 68000.
#[tactic(auto, unfolding(crate::specs::Codes::fault_word))]
pub(crate) fn fault_word(fc: u32, write: bool, instruction: bool) -> u32
    requires { fc < 8 }
    ensures { result ≡ fault_word fc write instruction }
{
    let read = if write { 0 } else { 16 };
    let data = if instruction { 0 } else { 8 };
    fc + read + data
}

// A size in its field, so many units each, 0 where it is greater than the field can tell.
fn size_field(size: u32, most: u32, unit: u32) -> u32
    requires { most * unit ≤ 0x400000 }
    ensures { (result ≡ pick (nat_le size most) (size * unit) 0) × (result ≤ most * unit) }
{
    if size <= most { size * unit } else { 0 }
}

// 68020 and 68030.
#[tactic(auto, using(crate::proofs::Sizes::sizes_020), unfolding(crate::specs::Codes::ssw020))]
pub(crate) fn ssw_020(fc: u32, write: bool, instruction: bool, size: u32) -> u32
    requires { fc < 8 }
    ensures { result ≡ ssw020 fc write instruction size }
{
    if instruction {
        fc + 0x5000
    } else {
        let read = if write { 0 } else { 64 };
        fc + 256 + read + size_field(size, 3, 16)
    }
}

#[tactic(auto, unfolding(crate::specs::Codes::is_cause))]
fn is_cause(cause: u8) -> bool
    ensures { result ≡ is_cause cause }
{
    matches!(cause, 1..=8)
}

// 68040.
#[tactic(auto, using(crate::proofs::Sizes::sizes_040), unfolding(crate::specs::Codes::ssw040))]
pub(crate) fn ssw_040(fc: u32, write: bool, size: u32, cause: u8) -> u32
    requires { fc < 8 }
    ensures { result ≡ ssw040 fc write size cause }
{
    let read = if write { 0 } else { 256 };
    let known = if is_cause(cause) { 1024 } else { 0 };
    read + known + size_field(size, 2, 32) + fc
}

// 68040: the status of the third write-back.
#[tactic(auto, using(crate::proofs::Sizes::sizes_040), unfolding(crate::specs::Codes::wb3s))]
pub(crate) fn wb3_status(fc: u32, write: bool, size: u32) -> u32
    requires { fc < 8 }
    ensures { result ≡ wb3s fc write size }
{
    if write {
        128 + size_field(size, 2, 32) + fc
    } else {
        0
    }
}

#[tactic(auto, unfolding(crate::specs::Codes::cause_bit))]
fn cause_bit(cause: u8, write: bool) -> u32
    ensures { (result ≡ cause_bit cause write) × (result < 0x2000) }
{
    match cause {
        1 => 0x1000,
        2 => 2048,
        3 => 1024,
        4 => 512,
        5 => 128,
        6 => 256,
        7 => 64,
        _ => if write { 16 } else { 32 },
    }
}

// `fslw_060`.
#[tactic(auto, using(crate::proofs::Sizes::sizes_060), unfolding(crate::specs::Codes::fslw060))]
pub(crate) fn fslw_060(write: bool, instruction: bool, size: u32, fc: u32, cause: u8) -> u32
    ensures { result ≡ fslw060 write instruction size fc cause }
{
    let direction = if write { 0x800000 } else { 0x1000000 };
    let program = if instruction { 0x8000 } else { 0 };
    direction + size_field(size, 2, 0x200000) + fc % 8 * 0x10000 + program + cause_bit(cause, write)
}
