// What an entry tests and changes on the record, one step each, and the numbers that it computes. It uses `pending` for the end of an
// interrupt, `status` and everything below; `access`, `exceptions` and `interrupts` use it.
#![tactic(auto)]

ghost use Rattle.std.specs.Prelude.{◌≡◌, ◌+◌, ◌/◌, ◌%◌, ◌^◌, true, false};
ghost use Rattle.steps.specs.Steps.{refuses_odd, vector_address, begin_bus, begin_address, close_bus, enter_bus_error, stacks_next, stacked_address, begin_entry, begin_trace, enter_level, close_interrupt, iack_vector, with_s};

use cpu::Cpu;

// The low word of a long. No cast drops bits, so these two are functions.
pub fn low_word(v: u32) -> u16
    ensures { result ≡ v % 0x10000 }
{
    (v % 0x10000) as u16
}

// The high word of a long.
pub fn high_word(v: u32) -> u16
    ensures { result ≡ v / 0x10000 }
{
    (v / 0x10000) as u16
}

// A status with S set.
#[tactic(auto, unfolding(crate::specs::Steps::with_s))]
pub fn with_s(sr: u16) -> u32
    ensures { result ≡ with_s sr }
{
    let n = u32::from(sr);
    n - n / 0x2000 % 2 * 0x2000 + 0x2000
}

// The vector of an acknowledge cycle.
#[tactic(auto, unfolding(crate::specs::Steps::iack_vector))]
pub fn iack_vector(response: u32, level: u8) -> u32
    ensures { result ≡ iack_vector response level }
{
    if response == 0xFFFFFFFF {
        types::SPURIOUS_INTERRUPT + u32::from(level % 8)
    } else {
        response % 256
    }
}

// Whether an odd guarded access is refused: kinds 1, 2, 10.
#[tactic(auto, unfolding(crate::specs::Steps::refuses_odd, cpu::specs::Fields::checks_alignment))]
pub fn refuses_odd(c: Cpu, a: u32) -> bool
    ensures { result ≡ refuses_odd c a }
{
    a % 2 == 1 && types::is_pre_68020(c.flow.cpu_type)
}

// The address of a vector.
#[tactic(auto, unfolding(crate::specs::Steps::vector_address, cpu::specs::Fields::vbr_of))]
pub fn vector_address(c: Cpu, v: u32) -> u32
    ensures { result ≡ vector_address c v }
{
    (v % 0x40000000 * 4).wrapping_add(c.flow.vbr)
}

// A bus error entry: supervisor state, trace off, and the function code that stood in is consumed.
#[tactic(auto, unfolding(crate::specs::Steps::enter_bus_error))]
pub fn enter_bus_error(c: Cpu) -> Cpu
    ensures { result ≡ enter_bus_error c }
{
    cpu::fields::clear_fc_override(status::banks::enter_supervisor(c))
}

// `trigger_bus_error` before its entry.
#[tactic(auto, unfolding(crate::specs::Steps::begin_bus))]
pub fn begin_bus(c: Cpu) -> Cpu
    ensures { result ≡ begin_bus c }
{
    let a = status::restore_sr(c);
    let b = cpu::fields::restore_registers(a);
    let d = cpu::fields::set_exception(b, true);
    cpu::fields::clear_cause(d)
}

// `trigger_address_error` before its entry.
#[tactic(auto, unfolding(crate::specs::Steps::begin_address))]
pub fn begin_address(c: Cpu) -> Cpu
    ensures { result ≡ begin_address c }
{
    cpu::fields::restore_registers(status::restore_sr(c))
}

// `trigger_bus_error` after its entry.
pub fn close_bus(c: Cpu) -> Cpu
    ensures { result ≡ close_bus c }
{
    status::keep_resume(cpu::fields::set_exception(c, false))
}

// Whether `take_exception` stacks the address of the next instruction.
#[tactic(auto, unfolding(crate::specs::Steps::stacks_next))]
fn stacks_next(v: u32) -> bool
    ensures { result ≡ stacks_next v }
{
    matches!(
        v,
        types::ZERO_DIVIDE | types::TRAPV | types::TRACE | 24..=47
    )
}

// The address that `take_exception` stacks.
#[tactic(auto, unfolding(crate::specs::Steps::stacked_address, cpu::specs::Fields::pc_of, cpu::specs::Fields::ppc_of))]
pub fn stacked_address(c: Cpu, v: u32) -> u32
    ensures { result ≡ stacked_address c v }
{
    if stacks_next(v) {
        c.flow.pc
    } else {
        c.flow.ppc
    }
}

// `take_exception` before its frame.
#[tactic(auto, unfolding(crate::specs::Steps::begin_entry))]
pub fn begin_entry(c: Cpu) -> Cpu
    ensures { result ≡ begin_entry c }
{
    cpu::clocks::internal_cycles(cpu::fields::set_exception(c, true), 4)
}

// `exception_trace` before its frame.
#[tactic(auto, unfolding(crate::specs::Steps::begin_trace))]
pub fn begin_trace(c: Cpu) -> Cpu
    ensures { result ≡ begin_trace c }
{
    cpu::clocks::internal_cycles(cpu::fields::leave_stop(c), 4)
}

// The start of every interrupt: supervisor state, trace off, the mask at the level.
#[tactic(auto, unfolding(crate::specs::Steps::enter_level))]
pub fn enter_level(c: Cpu, level: u8) -> Cpu
    ensures { result ≡ enter_level c level }
{
    status::set_int_mask(status::banks::enter_supervisor(c), level)
}

// The end of every interrupt: `stopped` is 0 and the cycles are charged.
#[tactic(auto, unfolding(crate::specs::Steps::close_interrupt))]
pub fn close_interrupt(c: Cpu) -> Cpu
    ensures { result ≡ close_interrupt c }
{
    pending::interrupts::charge_interrupt(cpu::fields::clear_stopped(c))
}
