// The functions that call each other, by the Rust's names and parameters, with `levels` in front; each says in its contract the definition of the same name. Only the two
// triggers lower `levels`. A read and a write are of a word or a long: `read_16`, `read_32`, `write_16`, `write_32` of the crate's root.
// While the record is faulted, `run_mode` 1, nothing is read, written or raised.
ghost use Rattle.std.specs.Prelude.{◌≡◌, true, false};
ghost use Rattle.memory.specs.World.{world, read_as};
ghost use Rattle.access.specs.Access.{trigger, bus_error, address_error, read_at, write_at, push_field, push_fields, jump_vector, prefetch_read, prefetch_first, prefetch_second, exception_bus_error, exception_address_error};

use frames::{Field, Frame, Mode};
use memory::{Core, Reply};

#[cycle(ring)]
#[tactic(auto, unfolding(crate::specs::Access::trigger, crate::specs::Access::raise_bus, cpu::specs::Fields::is_faulted, cpu::specs::Fields::in_exception, cpu::specs::Fields::cause_number_of))]
pub fn trigger_bus_error(
    m: Core,
    store: &mut [u8],
    log: &mut [u32],
    levels: u8,
    address: u32,
    write: bool,
    instruction: bool,
    size: u32,
) -> Core
    ensures { world result store.new log.new ≡ trigger levels (world m store.old log.old) (bus_error address write instruction size) }
{
    if m.cpu.flow.run_mode == 1 {
        return m;
    }
    if m.cpu.flow.exception_processing {
        return memory::with_cpu(m, cpu::fields::halt(m.cpu));
    }
    if levels == 0 {
        return memory::with_cpu(m, cpu::fields::halt(m.cpu));
    }
    let cause = m.cpu.fault.pending_fault_cause;
    let a = memory::with_cpu(m, steps::begin_bus(m.cpu));
    let b = exception_bus_error(
        a,
        store,
        log,
        levels - 1,
        address,
        write,
        instruction,
        size,
        cause,
    );
    memory::with_cpu(b, steps::close_bus(b.cpu))
}

#[cycle(ring)]
#[tactic(auto, unfolding(crate::specs::Access::trigger, crate::specs::Access::raise_address, cpu::specs::Fields::is_faulted))]
pub fn trigger_address_error(
    m: Core,
    store: &mut [u8],
    log: &mut [u32],
    levels: u8,
    address: u32,
    write: bool,
    instruction: bool,
) -> Core
    ensures { world result store.new log.new ≡ trigger levels (world m store.old log.old) (address_error address write instruction) }
{
    if m.cpu.flow.run_mode == 1 {
        return m;
    }
    if levels == 0 {
        return memory::with_cpu(m, cpu::fields::halt(m.cpu));
    }
    let a = memory::with_cpu(m, steps::begin_address(m.cpu));
    let b = exception_address_error(a, store, log, levels - 1, address, write, instruction);
    memory::with_cpu(b, status::keep_resume(b.cpu))
}

#[cycle(ring)]
#[tactic(auto, unfolding(crate::specs::Access::exception_bus_error, crate::specs::Access::push_frame))]
pub fn exception_bus_error(
    m: Core,
    store: &mut [u8],
    log: &mut [u32],
    levels: u8,
    address: u32,
    write: bool,
    instruction: bool,
    size: u32,
    cause: u8,
) -> Core
    ensures { world result store.new log.new ≡ exception_bus_error (trigger levels) (world m store.old log.old) address write instruction size cause }
{
    let f = frames::bus_frame(m.cpu, address, write, instruction, size, cause);
    let a = memory::with_cpu(m, steps::enter_bus_error(m.cpu));
    let b = push_fields(a, store, log, levels, f, f.count);
    jump_vector(b, store, log, levels, types::BUS_ERROR)
}

#[cycle(ring)]
#[tactic(auto, unfolding(crate::specs::Access::exception_address_error, crate::specs::Access::push_frame))]
pub fn exception_address_error(
    m: Core,
    store: &mut [u8],
    log: &mut [u32],
    levels: u8,
    address: u32,
    write: bool,
    instruction: bool,
) -> Core
    ensures { world result store.new log.new ≡ exception_address_error (trigger levels) (world m store.old log.old) address write instruction }
{
    let f = frames::address_frame(m.cpu, address, write, instruction);
    let a = memory::with_cpu(m, status::banks::enter_supervisor(m.cpu));
    let b = push_fields(a, store, log, levels, f, f.count);
    jump_vector(b, store, log, levels, types::ADDRESS_ERROR)
}

// The first `left` fields of a frame, from the last of them down to the first.
#[cycle(ring)]
#[tactic(auto, unfolding(crate::specs::Access::push_fields))]
pub fn push_fields(
    mut m: Core,
    store: &mut [u8],
    log: &mut [u32],
    levels: u8,
    f: Frame,
    left: u8,
) -> Core
    ensures { world result store.new log.new ≡ push_fields (trigger levels) (world m store.old log.old) f left }
{
    for k in (0..left).rev() {
        m = push_field(m, store, log, levels, frames::field_at(f, k));
    }
    m
}

// One field: A7 is lowered, then the field is only counted, written raw, or written guarded.
#[cycle(ring)]
#[tactic(auto, unfolding(crate::specs::Access::push_field, crate::specs::Access::stack_field, frames::specs::Frames::is_counted, frames::specs::Frames::is_raw, cpu::specs::Fields::a7_of, memory::specs::World::put_cpu))]
pub fn push_field(mut m: Core, store: &mut [u8], log: &mut [u32], levels: u8, f: Field) -> Core
    ensures { world result store.new log.new ≡ push_field (trigger levels) (world m store.old log.old) f }
{
    m.cpu = cpu::fields::lower_a7(m.cpu, memory::width(f.long));
    let at = m.cpu.regs.dar[15];
    match f.mode {
        Mode::Guarded => write_at(m, store, log, levels, at, f.long, f.value),
        Mode::Raw => {
            let p = cpu::fields::address(m.cpu, at);
            memory::raw_write(m, store, log, p, f.long, f.value)
        }
        Mode::Counted => m,
    }
}

// `write_16`, `write_32`.
#[cycle(ring)]
#[tactic(auto, unfolding(crate::specs::Access::write_at, crate::specs::Access::checked_write, crate::specs::Access::wrote, cpu::specs::Fields::is_faulted, memory::specs::World::put_cpu))]
pub fn write_at(
    mut m: Core,
    store: &mut [u8],
    log: &mut [u32],
    levels: u8,
    address: u32,
    long: bool,
    value: u32,
) -> Core
    ensures { world result store.new log.new ≡ write_at (trigger levels) (world m store.old log.old) address long value }
{
    if m.cpu.flow.run_mode == 1 {
        return m;
    }
    m = memory::flush_sync(m, store, log);
    let at = cpu::fields::address(m.cpu, address);
    if steps::refuses_odd(m.cpu, at) {
        return trigger_address_error(m, store, log, levels, at, true, false);
    }
    m.cpu = cpu::fields::set_wdata(m.cpu, value);
    let r = memory::try_write(m, store, log, at, long, value);
    if r.ok {
        return r.core;
    }
    let n = memory::width(long);
    trigger_bus_error(r.core, store, log, levels, at, true, false, n)
}

// `read_16`, `read_32`.
#[cycle(ring)]
#[tactic(auto, unfolding(crate::specs::Access::read_at, crate::specs::Access::checked_read, crate::specs::Access::read_or, cpu::specs::Fields::is_faulted))]
pub fn read_at(
    mut m: Core,
    store: &mut [u8],
    log: &mut [u32],
    levels: u8,
    address: u32,
    long: bool,
) -> Reply
    ensures { read_as (world result.core store.new log.new) result.value ≡ read_at (trigger levels) (world m store.old log.old) address long }
{
    if m.cpu.flow.run_mode == 1 {
        return Reply {
            core: m,
            value: None,
        };
    }
    m = memory::flush_sync(m, store, log);
    let at = cpu::fields::address(m.cpu, address);
    if steps::refuses_odd(m.cpu, at) {
        return Reply {
            core: trigger_address_error(m, store, log, levels, at, false, false),
            value: None,
        };
    }
    let r = memory::try_read(m, store, log, at, long);
    if r.value.is_some() {
        return r;
    }
    let n = memory::width(long);
    Reply {
        core: trigger_bus_error(r.core, store, log, levels, at, false, false, n),
        value: None,
    }
}

#[cycle(ring)]
#[tactic(auto, unfolding(crate::specs::Access::jump_vector, crate::specs::Access::jump_to, crate::specs::Access::vector_read, crate::specs::Access::refill, memory::specs::World::put_cpu))]
pub fn jump_vector(mut m: Core, store: &mut [u8], log: &mut [u32], levels: u8, vector: u32) -> Core
    ensures { world result store.new log.new ≡ jump_vector (trigger levels) (world m store.old log.old) vector }
{
    m = memory::release_sample(m, store, log);
    let at = steps::vector_address(m.cpu, vector);
    m.cpu = cpu::fields::start_vector(m.cpu, vector);
    let r = read_at(m, store, log, levels, at, true);
    m = r.core;
    m.cpu = cpu::fields::set_pc(m.cpu, r.value.unwrap_or(0));
    m = prefetch_first(m, store, log, levels);
    m.cpu = cpu::clocks::internal_cycles(m.cpu, 2);
    prefetch_second(m, store, log, levels)
}

#[cycle(ring)]
#[tactic(auto, unfolding(crate::specs::Access::prefetch_read, crate::specs::Access::read_or))]
pub fn prefetch_read(m: Core, store: &mut [u8], log: &mut [u32], levels: u8, address: u32) -> Reply
    ensures { read_as (world result.core store.new log.new) result.value ≡ prefetch_read (trigger levels) (world m store.old log.old) address }
{
    let a = memory::flush_sync(m, store, log);
    let at = cpu::fields::address(a.cpu, address);
    let r = memory::try_read(a, store, log, at, false);
    if r.value.is_some() {
        return r;
    }
    Reply {
        core: trigger_bus_error(r.core, store, log, levels, at, false, true, 2),
        value: None,
    }
}

#[cycle(ring)]
#[tactic(auto, unfolding(crate::specs::Access::prefetch_first, crate::specs::Access::first_from, crate::specs::Access::kept_first, cpu::specs::Fields::pc_of, cpu::specs::Fields::odd_pc, memory::specs::World::put_cpu))]
pub fn prefetch_first(mut m: Core, store: &mut [u8], log: &mut [u32], levels: u8) -> Core
    ensures { world result store.new log.new ≡ prefetch_first (trigger levels) (world m store.old log.old) }
{
    if !cpu::clocks::prefetch_enabled(m.cpu) {
        return m;
    }
    m.cpu = cpu::clocks::clear_prefetch(m.cpu);
    if m.cpu.flow.pc % 2 == 1 {
        return m;
    }
    let r = prefetch_read(m, store, log, levels, m.cpu.flow.pc);
    m = r.core;
    if let Some(v) = r.value {
        m.cpu = cpu::clocks::first_word(m.cpu, steps::low_word(v));
    }
    m
}

#[cycle(ring)]
#[tactic(auto, unfolding(crate::specs::Access::prefetch_second, crate::specs::Access::second_from, crate::specs::Access::kept_second, cpu::specs::Fields::pc_of, cpu::specs::Fields::odd_pc, cpu::specs::Fields::is_faulted, cpu::specs::Clocks::one_fetched, memory::specs::World::put_cpu))]
pub fn prefetch_second(mut m: Core, store: &mut [u8], log: &mut [u32], levels: u8) -> Core
    ensures { world result store.new log.new ≡ prefetch_second (trigger levels) (world m store.old log.old) }
{
    if !cpu::clocks::prefetch_enabled(m.cpu) || m.cpu.queue.prefetch_count != 1 {
        return m;
    }
    if m.cpu.flow.pc % 2 == 1 || m.cpu.flow.run_mode == 1 {
        return m;
    }
    let p = m.cpu.flow.pc.wrapping_add(2);
    let r = prefetch_read(m, store, log, levels, p);
    m = r.core;
    if let Some(v) = r.value {
        m.cpu = cpu::clocks::second_word(m.cpu, steps::low_word(v));
    }
    m
}
