// What follows from the kind of processor and from constants alone: the kinds by the numbers of `CpuType`, the families
// that the Rust tests, vector numbers by their Rust names, the fault causes, the table of cycles by vector and the table of
// frame lengths by kind and format. It uses nothing of the repository; every crate that knows the record uses it.
#![tactic(auto)]

ghost use Rattle.std.specs.Prelude.{◌≡◌, ◌<◌, ◌≤◌};
ghost use Rattle.types.specs.Kinds.{is040, is060, is_pre68020, is_ec020_plus, address_bits, mask_address, status_mask, mask_status, has_t0, has_m, pick};
ghost use Rattle.types.specs.Causes.{cause_number, cause_of};
ghost use Rattle.types.specs.Tables.{exception_cycles, frame_length};

// `CpuType`, as numbers and no enum: the record crosses C, where a kind is any byte, and 12 to 255 are kept and refused.
pub const INVALID: u8 = 0;

pub const M68000: u8 = 1;

pub const M68010: u8 = 2;

pub const M68EC020: u8 = 3;

pub const M68020: u8 = 4;

pub const M68EC030: u8 = 5;

pub const M68030: u8 = 6;

pub const M68EC040: u8 = 7;

pub const M68LC040: u8 = 8;

pub const M68040: u8 = 9;

pub const SCC68070: u8 = 10;

pub const M68060: u8 = 11;

// Exception vectors.
pub const RESET_SSP: u32 = 0;

pub const RESET_PC: u32 = 1;

pub const BUS_ERROR: u32 = 2;

pub const ADDRESS_ERROR: u32 = 3;

pub const ILLEGAL_INSTRUCTION: u32 = 4;

pub const ZERO_DIVIDE: u32 = 5;

pub const CHK: u32 = 6;

pub const TRAPV: u32 = 7;

pub const PRIVILEGE_VIOLATION: u32 = 8;

pub const TRACE: u32 = 9;

pub const LINE_1010: u32 = 10;

pub const LINE_1111: u32 = 11;

pub const FORMAT_ERROR: u32 = 14;

pub const UNINITIALIZED_INTERRUPT: u32 = 15;

pub const SPURIOUS_INTERRUPT: u32 = 24;

pub const TRAP_BASE: u32 = 32;

pub const FP_UNSUPP_DATA_TYPE: u32 = 55;

pub const MMU_CONFIGURATION_ERROR: u32 = 56;

pub const MMU_ILLEGAL_OPERATION_ERROR: u32 = 57;

pub const MMU_ACCESS_LEVEL_VIOLATION_ERROR: u32 = 58;

pub const FP_UNIMPLEMENTED_EA: u32 = 60;

pub const UNIMPLEMENTED_INTEGER: u32 = 61;

// Why a guarded access failed, by the numbers that the record keeps.
#[derive(Clone, Copy, PartialEq, Eq, Debug)]
pub enum FaultCause {
    PointerA = 1,
    PointerB = 2,
    Indirect = 3,
    PageFault = 4,
    WriteProtect = 5,
    SupervisorProtect = 6,
    TableWalkBusError = 7,
    AccessBusError = 8,
}

// Cycles of an exception, by vector.
const CYCLES: [u32; 256] = [
    40, 40, 50, 50, 34, 38, 40, 34, 34, 34, 34, 34, 34, 34, 34, 34, 34, 34, 34, 34, 34, 34, 34, 34,
    44, 44, 44, 44, 44, 44, 44, 44, 34, 34, 34, 34, 34, 34, 34, 34, 34, 34, 34, 34, 34, 34, 34, 34,
    34, 34, 34, 34, 34, 34, 34, 34, 34, 34, 34, 34, 34, 34, 34, 34, 34, 34, 34, 34, 34, 34, 34, 34,
    34, 34, 34, 34, 34, 34, 34, 34, 34, 34, 34, 34, 34, 34, 34, 34, 34, 34, 34, 34, 34, 34, 34, 34,
    34, 34, 34, 34, 34, 34, 34, 34, 34, 34, 34, 34, 34, 34, 34, 34, 34, 34, 34, 34, 34, 34, 34, 34,
    34, 34, 34, 34, 34, 34, 34, 34, 34, 34, 34, 34, 34, 34, 34, 34, 34, 34, 34, 34, 34, 34, 34, 34,
    34, 34, 34, 34, 34, 34, 34, 34, 34, 34, 34, 34, 34, 34, 34, 34, 34, 34, 34, 34, 34, 34, 34, 34,
    34, 34, 34, 34, 34, 34, 34, 34, 34, 34, 34, 34, 34, 34, 34, 34, 34, 34, 34, 34, 34, 34, 34, 34,
    34, 34, 34, 34, 34, 34, 34, 34, 34, 34, 34, 34, 34, 34, 34, 34, 34, 34, 34, 34, 34, 34, 34, 34,
    34, 34, 34, 34, 34, 34, 34, 34, 34, 34, 34, 34, 34, 34, 34, 34, 34, 34, 34, 34, 34, 34, 34, 34,
    34, 34, 34, 34, 34, 34, 34, 34, 34, 34, 34, 34, 34, 34, 34, 34,
];

// Frame lengths in bytes, by kind and format; 0 where the kind takes no such frame.
const LENGTHS: [[u8; 16]; 12] = [
    [8, 0, 12, 0, 0, 0, 0, 0, 0, 0, 0, 92, 0, 0, 0, 0],
    [0, 0, 0, 0, 0, 0, 0, 0, 0, 0, 0, 0, 0, 0, 0, 0],
    [8, 0, 0, 0, 0, 0, 0, 0, 58, 0, 0, 0, 0, 0, 0, 0],
    [8, 8, 12, 0, 0, 0, 0, 0, 0, 0, 0, 92, 0, 0, 0, 0],
    [8, 8, 12, 0, 0, 0, 0, 0, 0, 0, 0, 92, 0, 0, 0, 0],
    [8, 8, 12, 0, 0, 0, 0, 0, 0, 0, 0, 92, 0, 0, 0, 0],
    [8, 8, 12, 0, 0, 0, 0, 0, 0, 0, 0, 92, 0, 0, 0, 0],
    [8, 8, 12, 0, 0, 0, 0, 60, 0, 0, 0, 0, 0, 0, 0, 0],
    [8, 8, 12, 0, 0, 0, 0, 60, 0, 0, 0, 0, 0, 0, 0, 0],
    [8, 8, 12, 0, 0, 0, 0, 60, 0, 0, 0, 0, 0, 0, 0, 0],
    [8, 0, 0, 0, 0, 0, 0, 0, 58, 0, 0, 0, 0, 0, 0, 0],
    [8, 0, 12, 0, 16, 0, 0, 0, 0, 0, 0, 0, 0, 0, 0, 0],
];

#[tactic(auto, unfolding(crate::specs::Kinds::is040))]
pub fn is_040(kind: u8) -> bool
    ensures { result ≡ is040 kind }
{
    matches!(kind, M68EC040..=M68040)
}

#[tactic(auto, unfolding(crate::specs::Kinds::is060))]
pub fn is_060(kind: u8) -> bool
    ensures { result ≡ is060 kind }
{
    kind == M68060
}

#[tactic(auto, unfolding(crate::specs::Kinds::is_pre68020))]
pub fn is_pre_68020(kind: u8) -> bool
    ensures { result ≡ is_pre68020 kind }
{
    matches!(kind, M68000 | M68010 | SCC68070)
}

#[tactic(auto, unfolding(crate::specs::Kinds::is_ec020_plus))]
pub fn is_ec020_plus(kind: u8) -> bool
    ensures { result ≡ is_ec020_plus kind }
{
    matches!(kind, M68EC020..=M68040)
}

#[tactic(auto, unfolding(crate::specs::Kinds::mask_address))]
pub fn mask_address(kind: u8, a: u32) -> u32
    ensures { result ≡ mask_address kind a }
{
    if kind < M68EC020 { a % 0x1000000 } else { a }
}

// Whether the kind's status register has T0, trace on change of flow.
#[tactic(auto, unfolding(crate::specs::Kinds::has_t0))]
pub fn has_t0(kind: u8) -> bool
    ensures { result ≡ has_t0 kind }
{
    !matches!(kind, INVALID..=M68010 | SCC68070 | M68060)
}

// Whether the kind's status register has M, the master bit.
#[tactic(auto, unfolding(crate::specs::Kinds::has_m))]
pub fn has_m(kind: u8) -> bool
    ensures { result ≡ has_m kind }
{
    !matches!(kind, INVALID..=M68010 | SCC68070)
}

// A status under the kind's mask.
#[tactic(auto, unfolding(crate::specs::Kinds::mask_status))]
pub fn mask_status(kind: u8, w: u16) -> u16
    ensures { result ≡ mask_status kind w }
{
    let t0 = if has_t0(kind) {
        w / 0x4000 % 2 * 0x4000
    } else {
        0
    };
    let m = if has_m(kind) {
        w / 0x1000 % 2 * 0x1000
    } else {
        0
    };
    w / 0x8000 % 2 * 0x8000 + t0 + w / 0x2000 % 2 * 0x2000 + m + w / 256 % 8 * 256 + w % 32
}

// The number of a cause, as the record keeps it; 0 where there is none.
pub fn cause_number(cause: Option<FaultCause>) -> u8
    ensures { result ≡ cause_number cause }
{
    match cause {
        Some(c) => c as u8,
        None => 0,
    }
}

// The cause of a number, none for a number that names none: no `TryFrom`, for that is no error.
#[tactic(auto, unfolding(crate::specs::Causes::cause_of))]
pub fn cause_of(n: u8) -> Option<FaultCause>
    ensures { result ≡ cause_of n }
{
    match n {
        1 => Some(FaultCause::PointerA),
        2 => Some(FaultCause::PointerB),
        3 => Some(FaultCause::Indirect),
        4 => Some(FaultCause::PageFault),
        5 => Some(FaultCause::WriteProtect),
        6 => Some(FaultCause::SupervisorProtect),
        7 => Some(FaultCause::TableWalkBusError),
        8 => Some(FaultCause::AccessBusError),
        _ => None,
    }
}

// Cycles of an exception. Vectors above 255 are refused by the public calls; here they cost what user vectors do.
pub fn exception_cycles(vector: u32) -> u32
    ensures { result ≡ exception_cycles vector }
{
    if 256 <= vector {
        return 34;
    }
    CYCLES[vector as usize]
}

// The length in bytes of a frame of a kind, 0 where the kind takes no such frame.
pub fn frame_length(kind: u8, format: u8) -> u8
    ensures { result ≡ frame_length kind format }
{
    if 12 <= kind {
        return 0;
    }
    if 16 <= format {
        return 0;
    }
    LENGTHS[kind as usize][format as usize]
}
