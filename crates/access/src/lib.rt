// Guarded accesses and what they raise: triggers, error entries, pushes, the vector jump and the prefetch call each other, with one fault
// level less at each trigger. It uses `steps`, `frames`, `memory` and everything below; `exceptions` and `interrupts` push their frames and
// jump through it, and `calls` calls it. Here are the Rust's names and parameters over the functions that call each other, a line each, with
// two levels: inside the domain more change nothing.
#![tactic(auto)]

use frames::Frame;
use memory::{Core, Reply};

mod ring; // the functions that call each other

ghost use Rattle.std.specs.Prelude.{◌≡◌, true, false};
ghost use Rattle.memory.specs.World.{world, read_as};
ghost use Rattle.frames.specs.Frames.{word, long};
ghost use Rattle.access.specs.Access.{raised, trigger, bus_error, address_error, read_at, write_at, push_field, push_frame, push_exception_frame68000, jump_vector, prefetch_first, prefetch_second, exception_bus_error, exception_address_error};

// How often an entry may begin inside another: a third one halts.
const LEVELS: u8 = 2;

// A guarded read of a word.
pub fn read_16(m: Core, store: &mut [u8], log: &mut [u32], a: u32) -> Reply
    ensures { read_as (world result.core store.new log.new) result.value ≡ read_at raised (world m store.old log.old) a false }
{
    ring::read_at(m, store, log, LEVELS, a, false)
}

// A guarded read of a long.
pub fn read_32(m: Core, store: &mut [u8], log: &mut [u32], a: u32) -> Reply
    ensures { read_as (world result.core store.new log.new) result.value ≡ read_at raised (world m store.old log.old) a true }
{
    ring::read_at(m, store, log, LEVELS, a, true)
}

// A guarded write of a word.
pub fn write_16(m: Core, store: &mut [u8], log: &mut [u32], a: u32, v: u16) -> Core
    ensures { world result store.new log.new ≡ write_at raised (world m store.old log.old) a false v }
{
    ring::write_at(m, store, log, LEVELS, a, false, u32::from(v))
}

// A guarded write of a long.
pub fn write_32(m: Core, store: &mut [u8], log: &mut [u32], a: u32, v: u32) -> Core
    ensures { world result store.new log.new ≡ write_at raised (world m store.old log.old) a true v }
{
    ring::write_at(m, store, log, LEVELS, a, true, v)
}

// A guarded push of a word.
pub fn push_16(m: Core, store: &mut [u8], log: &mut [u32], v: u16) -> Core
    ensures { world result store.new log.new ≡ push_field raised (world m store.old log.old) (word v) }
{
    ring::push_field(m, store, log, LEVELS, frames::word(u32::from(v)))
}

// A guarded push of a long.
pub fn push_32(m: Core, store: &mut [u8], log: &mut [u32], v: u32) -> Core
    ensures { world result store.new log.new ≡ push_field raised (world m store.old log.old) (long v) }
{
    ring::push_field(m, store, log, LEVELS, frames::long(v))
}

// All fields of a frame.
#[tactic(auto, unfolding(crate::specs::Access::push_frame))]
pub fn push_frame(m: Core, store: &mut [u8], log: &mut [u32], f: Frame) -> Core
    ensures { world result store.new log.new ≡ push_frame raised (world m store.old log.old) f }
{
    ring::push_fields(m, store, log, LEVELS, f, f.count)
}

// The frame of the 68000: A7 lowered once, then PC low, the status and PC high.
#[tactic(auto, unfolding(crate::specs::Access::push_exception_frame68000, crate::specs::Access::short_writes))]
pub fn push_exception_frame_68000(
    m: Core,
    store: &mut [u8],
    log: &mut [u32],
    pc: u32,
    sr: u16,
) -> Core
    ensures { world result store.new log.new ≡ push_exception_frame68000 raised (world m store.old log.old) pc sr }
{
    let a = memory::with_cpu(m, cpu::fields::lower_a7(m.cpu, 6));
    let sp = cpu::fields::a7(a.cpu);
    let low = pc % 0x10000;
    let high = pc / 0x10000;
    let b = ring::write_at(a, store, log, LEVELS, sp.wrapping_add(4), false, low);
    let d = ring::write_at(b, store, log, LEVELS, sp, false, u32::from(sr));
    ring::write_at(d, store, log, LEVELS, sp.wrapping_add(2), false, high)
}

// The jump to a vector.
pub fn jump_vector(m: Core, store: &mut [u8], log: &mut [u32], vector: u32) -> Core
    ensures { world result store.new log.new ≡ jump_vector raised (world m store.old log.old) vector }
{
    ring::jump_vector(m, store, log, LEVELS, vector)
}

// The first word of the queue.
pub fn prefetch_first(m: Core, store: &mut [u8], log: &mut [u32]) -> Core
    ensures { world result store.new log.new ≡ prefetch_first raised (world m store.old log.old) }
{
    ring::prefetch_first(m, store, log, LEVELS)
}

// The second word of the queue.
pub fn prefetch_second(m: Core, store: &mut [u8], log: &mut [u32]) -> Core
    ensures { world result store.new log.new ≡ prefetch_second raised (world m store.old log.old) }
{
    ring::prefetch_second(m, store, log, LEVELS)
}

// A bus error that an access of the instruction raises.
pub fn trigger_bus_error(
    m: Core,
    store: &mut [u8],
    log: &mut [u32],
    address: u32,
    write: bool,
    instruction: bool,
    size: u32,
) -> Core
    ensures { world result store.new log.new ≡ raised (world m store.old log.old) (bus_error address write instruction size) }
{
    ring::trigger_bus_error(m, store, log, LEVELS, address, write, instruction, size)
}

// An address error that an access of the instruction raises.
pub fn trigger_address_error(
    m: Core,
    store: &mut [u8],
    log: &mut [u32],
    address: u32,
    write: bool,
    instruction: bool,
) -> Core
    ensures { world result store.new log.new ≡ raised (world m store.old log.old) (address_error address write instruction) }
{
    ring::trigger_address_error(m, store, log, LEVELS, address, write, instruction)
}

// The entry of a bus error.
pub fn exception_bus_error(
    m: Core,
    store: &mut [u8],
    log: &mut [u32],
    address: u32,
    write: bool,
    instruction: bool,
    size: u32,
    cause: u8,
) -> Core
    ensures { world result store.new log.new ≡ exception_bus_error raised (world m store.old log.old) address write instruction size cause }
{
    ring::exception_bus_error(
        m,
        store,
        log,
        LEVELS,
        address,
        write,
        instruction,
        size,
        cause,
    )
}

// The entry of an address error.
pub fn exception_address_error(
    m: Core,
    store: &mut [u8],
    log: &mut [u32],
    address: u32,
    write: bool,
    instruction: bool,
) -> Core
    ensures { world result store.new log.new ≡ exception_address_error raised (world m store.old log.old) address write instruction }
{
    ring::exception_address_error(m, store, log, LEVELS, address, write, instruction)
}
