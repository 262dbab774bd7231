// Whether a call that is given a record and a store is plainly accepted: by a few tests that say more than the numbers 1, 2, 4, 5, 6 and 9
// ask. S is set and there is no window; the vector base is even and the function code below 8, whether or not they count.
ghost use Rattle.std.specs.Prelude.{◌≡◌};
ghost use Rattle.fast_return.specs.Accepted.{plain_flags, plain_cpu, plain_bus, accepts};

use cpu::Cpu;
use memory::{Bus, Core};

// S is set, and M is clear or its own bit.
#[tactic(auto, unfolding(crate::specs::Accepted::plain_flags))]
fn plain_flags(c: Cpu) -> bool
    ensures { result ≡ plain_flags c }
{
    c.flags.s_flag == 4 && (c.flags.m_flag == 0 || c.flags.m_flag == 2)
}

#[tactic(auto, unfolding(crate::specs::Accepted::plain_cpu))]
fn plain_cpu(c: Cpu) -> bool
    ensures { result ≡ plain_cpu c }
{
    c.flow.vbr % 2 == 0
        && c.fault.mmu_fc_override.value < 8
        && c.flow.cpu_type <= types::M68060
        && plain_flags(c)
}

// A store that number 5 accepts, and no window.
#[tactic(auto, unfolding(crate::specs::Accepted::plain_bus))]
fn plain_bus(b: Bus, stored: usize) -> bool
    ensures { result ≡ plain_bus b stored }
{
    stored <= 65536 && b.base as usize + stored <= 0x100000000 && b.windows == 0
}

#[tactic(auto, unfolding(crate::specs::Accepted::accepts))]
pub fn accepted(m: Core, stored: usize) -> bool
    ensures { result ≡ accepts m stored }
{
    plain_bus(m.bus, stored) && plain_cpu(m.cpu)
}
