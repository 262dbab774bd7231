// The interrupt call: `check_and_service_interrupts` with `service_interrupt`, kind by kind. It uses `formats` for the frames, `access` and
// everything below; `answers` and `calls` use it.
#![tactic(auto)]

ghost use Rattle.std.specs.Prelude.{◌≡◌, true, false};
ghost use Rattle.memory.specs.World.{world, reply, tried};
ghost use Rattle.interrupts.specs.Interrupts.{acknowledge_level, synced_acknowledge, from68000, writes68010, first_frame, throwaway, second_frame, service_interrupt, check_and_service, push_interrupt68000, push_interrupt68010, push_interrupt_other};

use memory::Core;

// A core after the first frame, and the vector that the acknowledge gave.
#[derive(Clone, Copy)]
pub struct Stacked {
    pub core: Core,
    pub vector: u32,
}

// A core after the interrupt call, and whether an interrupt was taken: the core means something in either case.
#[derive(Clone, Copy)]
pub struct Serviced {
    pub core: Core,
    pub taken: bool,
}

// PC, status and level of the interrupt are the Rust's parameters, and go where each frame needs them.

// The acknowledge cycle and its vector.
#[tactic(auto, unfolding(crate::specs::Interrupts::acknowledge_level, crate::specs::Interrupts::vector_from))]
fn acknowledge_level(m: Core, store: &mut [u8], log: &mut [u32], level: u8) -> Stacked
    ensures { reply (world result.core store.new log.new) true result.vector ≡ acknowledge_level (world m store.old log.old) level }
{
    let a = memory::acknowledge(m, store, log, level);
    Stacked {
        core: a.core,
        vector: steps::iack_vector(a.response, level),
    }
}

// Clocks, their sync, and the acknowledge.
#[tactic(auto, unfolding(crate::specs::Interrupts::synced_acknowledge))]
fn synced_acknowledge(m: Core, store: &mut [u8], log: &mut [u32], clocks: u32, level: u8) -> Stacked
    ensures { reply (world result.core store.new log.new) true result.vector ≡ synced_acknowledge (world m store.old log.old) clocks level }
{
    let a = memory::with_cpu(m, cpu::clocks::internal_cycles(m.cpu, clocks));
    let b = memory::flush_sync(a, store, log);
    acknowledge_level(b, store, log, level)
}

// 68000: PC low, the acknowledge, the status, PC high.
#[tactic(auto, unfolding(crate::specs::Interrupts::from68000, crate::specs::Interrupts::rest68000))]
fn from_68000(
    m: Core,
    store: &mut [u8],
    log: &mut [u32],
    sp: u32,
    pc: u32,
    sr: u16,
    level: u8,
) -> Stacked
    ensures { reply (world result.core store.new log.new) true result.vector ≡ from68000 (world m store.old log.old) sp pc sr level }
{
    let a = access::write_16(m, store, log, sp.wrapping_add(4), steps::low_word(pc));
    let x = synced_acknowledge(a, store, log, 4, level);
    let b = x.core;
    let d = memory::with_cpu(b, cpu::clocks::internal_cycles(b.cpu, 4));
    let e = access::write_16(d, store, log, sp, sr);
    let core = access::write_16(e, store, log, sp.wrapping_add(2), steps::high_word(pc));
    Stacked {
        core,
        vector: x.vector,
    }
}

// 68000: 6 clocks, and A7 lowered once.
#[tactic(auto, unfolding(crate::specs::Interrupts::push_interrupt68000))]
fn push_interrupt_68000(
    m: Core,
    store: &mut [u8],
    log: &mut [u32],
    pc: u32,
    sr: u16,
    level: u8,
) -> Stacked
    ensures { reply (world result.core store.new log.new) true result.vector ≡ push_interrupt68000 (world m store.old log.old) pc sr level }
{
    let c = cpu::fields::lower_a7(cpu::clocks::internal_cycles(m.cpu, 6), 6);
    let sp = cpu::fields::a7(c);
    let a = memory::with_cpu(m, c);
    from_68000(a, store, log, sp, pc, sr, level)
}

// 68010: PC low, the status, PC high, the format word.
#[tactic(auto, unfolding(crate::specs::Interrupts::writes68010))]
fn writes_68010(
    m: Core,
    store: &mut [u8],
    log: &mut [u32],
    sp: u32,
    pc: u32,
    sr: u16,
    format: u16,
) -> Core
    ensures { world result store.new log.new ≡ writes68010 (world m store.old log.old) sp pc sr format }
{
    let a = access::write_16(m, store, log, sp.wrapping_add(4), steps::low_word(pc));
    let b = access::write_16(a, store, log, sp, sr);
    let d = access::write_16(b, store, log, sp.wrapping_add(2), steps::high_word(pc));
    access::write_16(d, store, log, sp.wrapping_add(6), format)
}

// 68010: 12 clocks, the acknowledge, and A7 lowered once.
#[tactic(auto, unfolding(crate::specs::Interrupts::push_interrupt68010, crate::specs::Interrupts::rest68010))]
fn push_interrupt_68010(
    m: Core,
    store: &mut [u8],
    log: &mut [u32],
    pc: u32,
    sr: u16,
    level: u8,
) -> Stacked
    ensures { reply (world result.core store.new log.new) true result.vector ≡ push_interrupt68010 (world m store.old log.old) pc sr level }
{
    let x = synced_acknowledge(m, store, log, 12, level);
    let a = x.core;
    let c = cpu::fields::lower_a7(a.cpu, 8);
    let sp = cpu::fields::a7(c);
    let b = memory::with_cpu(a, c);
    let format = formats::offset_word(x.vector);
    let d = writes_68010(b, store, log, sp, pc, sr, format);
    Stacked {
        core: d,
        vector: x.vector,
    }
}

// Other kinds: the acknowledge, then format 0.
#[tactic(auto, unfolding(crate::specs::Interrupts::push_interrupt_other, crate::specs::Interrupts::rest_other))]
fn push_interrupt_other(
    m: Core,
    store: &mut [u8],
    log: &mut [u32],
    pc: u32,
    sr: u16,
    level: u8,
) -> Stacked
    ensures { reply (world result.core store.new log.new) true result.vector ≡ push_interrupt_other (world m store.old log.old) pc sr level }
{
    let x = acknowledge_level(m, store, log, level);
    let a = x.core;
    let format = formats::offset_word(x.vector);
    let f = formats::short_frame(u32::from(sr), pc, u32::from(format));
    let b = access::push_frame(a, store, log, f);
    Stacked {
        core: b,
        vector: x.vector,
    }
}

// The first frame.
#[tactic(auto, unfolding(crate::specs::Interrupts::first_frame, cpu::specs::Fields::kind_of))]
fn first_frame(m: Core, store: &mut [u8], log: &mut [u32], pc: u32, sr: u16, level: u8) -> Stacked
    ensures { reply (world result.core store.new log.new) true result.vector ≡ first_frame (world m store.old log.old) pc sr level }
{
    match m.cpu.flow.cpu_type {
        types::M68000 => push_interrupt_68000(m, store, log, pc, sr, level),
        types::M68010 => push_interrupt_68010(m, store, log, pc, sr, level),
        _ => push_interrupt_other(m, store, log, pc, sr, level),
    }
}

// The format 1 frame on the interrupt stack.
#[tactic(auto, unfolding(crate::specs::Interrupts::throwaway))]
fn throwaway_frame(
    m: Core,
    store: &mut [u8],
    log: &mut [u32],
    pc: u32,
    sr: u16,
    vector: u32,
) -> Core
    ensures { world result store.new log.new ≡ throwaway (world m store.old log.old) pc sr vector }
{
    let a = memory::with_cpu(m, status::banks::set_sm_flag(m.cpu, 4));
    let n = steps::with_s(sr);
    let format = formats::format_word(1, vector);
    let f = formats::short_frame(n, pc, format);
    access::push_frame(a, store, log, f)
}

// What follows the first frame where M is set.
#[tactic(auto, unfolding(crate::specs::Interrupts::second_frame, cpu::specs::Fields::kind_of, status::specs::Status::m_is_set))]
fn second_frame(m: Core, store: &mut [u8], log: &mut [u32], pc: u32, sr: u16, vector: u32) -> Core
    ensures { world result store.new log.new ≡ second_frame (world m store.old log.old) pc sr vector }
{
    if !status::m_is_set(m.cpu) {
        return m;
    }
    let k = m.cpu.flow.cpu_type;
    if types::is_ec020_plus(k) {
        throwaway_frame(m, store, log, pc, sr, vector)
    } else if types::is_060(k) {
        memory::with_cpu(m, status::clear_m(m.cpu))
    } else {
        m
    }
}

// One interrupt at a level.
#[tactic(auto, unfolding(crate::specs::Interrupts::service_interrupt, crate::specs::Interrupts::dispatched, crate::specs::Interrupts::ended, cpu::specs::Fields::pc_of))]
pub fn service_interrupt(m: Core, store: &mut [u8], log: &mut [u32], level: u8) -> Core
    ensures { world result store.new log.new ≡ service_interrupt (world m store.old log.old) level }
{
    let pc = m.cpu.flow.pc;
    let sr = status::get_sr(m.cpu);
    let a = memory::with_cpu(m, steps::enter_level(m.cpu, level));
    let x = first_frame(a, store, log, pc, sr, level);
    let b = second_frame(x.core, store, log, pc, sr, x.vector);
    let d = access::jump_vector(b, store, log, x.vector);
    memory::with_cpu(d, steps::close_interrupt(d.cpu))
}

// The interrupt call.
#[tactic(auto, unfolding(crate::specs::Interrupts::check_and_service, crate::specs::Interrupts::serviced))]
pub fn check_and_service_interrupts(m: Core, store: &mut [u8], log: &mut [u32]) -> Serviced
    ensures { tried (world result.core store.new log.new) result.taken ≡ check_and_service (world m store.old log.old) }
{
    if pending::interrupts::takes_interrupt(m.cpu) {
        let level = pending::interrupts::pending_level(m.cpu);
        let a = service_interrupt(m, store, log, level);
        Serviced {
            core: memory::with_cpu(a, pending::interrupts::clear_level(a.cpu)),
            taken: true,
        }
    } else {
        Serviced {
            core: m,
            taken: false,
        }
    }
}
