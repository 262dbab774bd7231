// Interrupt levels: set, pending, and taken or not.
ghost use Rattle.std.specs.Prelude.{◌≡◌, ◌<◌, pos, ◌-ℤ◌};
ghost use Rattle.std.specs.Int.{w32};
ghost use Rattle.std.proofs.Common.{SFits};
ghost use Rattle.pending.specs.Interrupts.{set_irq, clear_level, check_interrupts, pending_level, mask_level, takes_interrupt, has_cycles, has_room, less_cycles, charge_interrupt, charged};

use cpu::{Cpu, Flow};

// `set_irq`: the pending level, its low 3 bits
#[tactic(auto, unfolding(crate::specs::Interrupts::set_irq))]
pub fn set_irq(mut c: Cpu, level: u8) -> Cpu
    ensures { result ≡ set_irq c level }
{
    c.flags.int_level = u32::from(level) % 8;
    c
}

// no level is pending
#[tactic(auto, unfolding(crate::specs::Interrupts::clear_level))]
pub fn clear_level(mut c: Cpu) -> Cpu
    ensures { result ≡ clear_level c }
{
    c.flags.int_level = 0;
    c
}

// `check_interrupts`: whether an interrupt should be serviced, by the raw fields.
#[tactic(auto, unfolding(crate::specs::Interrupts::check_interrupts))]
pub fn check_interrupts(c: Cpu) -> bool
    ensures { result ≡ check_interrupts c }
{
    c.flags.int_level == 7 || c.flags.int_mask / 256 < c.flags.int_level
}

// The level of the interrupt call: the low 3 bits, so that 8 reads as none.
#[tactic(auto, unfolding(crate::specs::Interrupts::pending_level))]
pub fn pending_level(c: Cpu) -> u8
    ensures { (result ≡ pending_level c) × (result < 8) }
{
    (c.flags.int_level % 8) as u8
}

// The mask of the interrupt call: 3 bits.
#[tactic(auto, unfolding(crate::specs::Interrupts::mask_level))]
pub fn mask_level(c: Cpu) -> u8
    ensures { (result ≡ mask_level c) × (result < 8) }
{
    (c.flags.int_mask / 256 % 8) as u8
}

// The decision of `check_and_service_interrupts`: level 7 always, any other exactly if it exceeds the mask.
#[tactic(auto, unfolding(crate::specs::Interrupts::takes_interrupt))]
pub fn takes_interrupt(c: Cpu) -> bool
    ensures { result ≡ takes_interrupt c }
{
    let level = pending_level(c);
    level == 7 || mask_level(c) < level
}

// Whether 46 cycles can be charged and the sum stays a 32-bit number: what number 3 tests.
#[tactic(auto, unfolding(crate::specs::Interrupts::has_cycles))]
pub fn has_cycles(c: Cpu) -> bool
    ensures { result ≡ has_cycles c }
{
    has_room(c.flow.cycles_remaining)
}

// The cycles of an interrupt are taken off: 46 or 44. Where the difference would not fit, nothing is; number 3 refuses such a
// record first.
#[tactic(auto, unfolding(crate::specs::Interrupts::less_cycles))]
pub fn less_cycles(n: i32, more: bool) -> i32
    ensures { result ≡ less_cycles n more }
{
    if has_room(n) {
        if more { n - 46 } else { n - 44 }
    } else {
        n
    }
}

pub fn has_room(n: i32) -> bool
    ensures { result ≡ has_room n }
{
    -2147483602 <= n
}

#[tactic(auto, unfolding(crate::specs::Interrupts::charged))]
fn charged(mut f: Flow) -> Flow
    ensures { result ≡ charged f }
{
    let n = less_cycles(f.cycles_remaining, f.cpu_type == types::M68010);
    f.cycles_remaining = n;
    f
}

// `cycles_remaining` falls by the cycles of an interrupt: 46 on kind 2, else 44.
#[tactic(auto, unfolding(crate::specs::Interrupts::charge_interrupt))]
pub fn charge_interrupt(mut c: Cpu) -> Cpu
    ensures { result ≡ charge_interrupt c }
{
    c.flow = charged(c.flow);
    c
}
