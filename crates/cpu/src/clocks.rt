// Clocks that wait to be reported, and the prefetch queue.
ghost use Rattle.std.specs.Prelude.{◌≡◌};
ghost use Rattle.cpu.specs.Clocks.{prefetch_enabled, internal_cycles, set_clocks, clear_prefetch, first_word, second_word};

use crate::Cpu;

// `prefetch_enabled`: the kinds with a queue, while the bus is precise.
#[tactic(auto, unfolding(crate::specs::Clocks::prefetch_enabled, types::specs::Kinds::is_prefetch_kind))]
pub fn prefetch_enabled(c: Cpu) -> bool
    ensures { result ≡ prefetch_enabled c }
{
    c.queue.precise_bus && matches!(c.flow.cpu_type, types::M68000 | types::M68010)
}

// `internal_cycles`: clocks of internal processing wait for the next guarded access, modulo 2^32.
#[tactic(auto, unfolding(crate::specs::Clocks::internal_cycles, crate::specs::Clocks::clocks_of))]
pub fn internal_cycles(c: Cpu, n: u32) -> Cpu
    ensures { result ≡ internal_cycles c n }
{
    if prefetch_enabled(c) {
        set_clocks(c, c.queue.pending_sync_clocks.wrapping_add(n))
    } else {
        c
    }
}

// n clocks wait to be reported
#[tactic(auto, unfolding(crate::specs::Clocks::set_clocks))]
pub fn set_clocks(mut c: Cpu, n: u32) -> Cpu
    ensures { result ≡ set_clocks c n }
{
    c.queue.pending_sync_clocks = n;
    c
}

// nothing is queued
#[tactic(auto, unfolding(crate::specs::Clocks::clear_prefetch))]
pub fn clear_prefetch(mut c: Cpu) -> Cpu
    ensures { result ≡ clear_prefetch c }
{
    c.queue.prefetch_count = 0;
    c
}

// the first word is queued; a function of the place would have to ask that it is 0 or 1
#[tactic(auto, unfolding(crate::specs::Clocks::first_word))]
pub fn first_word(mut c: Cpu, w: u16) -> Cpu
    ensures { result ≡ first_word c w }
{
    c.queue.prefetch_queue[0] = w;
    c.queue.prefetch_count = 1;
    c
}

// the second word is queued
#[tactic(auto, unfolding(crate::specs::Clocks::second_word))]
pub fn second_word(mut c: Cpu, w: u16) -> Cpu
    ensures { result ≡ second_word c w }
{
    c.queue.prefetch_queue[1] = w;
    c.queue.prefetch_count = 2;
    c
}
