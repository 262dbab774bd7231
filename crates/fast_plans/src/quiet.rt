// Calls that make no access: `check_trace`, `set_irq`, `check_interrupts` and the interrupt call where no interrupt is taken.
ghost use Rattle.std.specs.Prelude.{◌≡◌};
ghost use Rattle.fast_plans.specs.Quiet.{is_quiet, calm_patch, still_patch, asks, checks, quiet_of};

use crate::{Patch, View, Way, plans};
use numbers::RawCall;

#[tactic(auto, unfolding(crate::specs::Quiet::is_quiet))]
pub fn is_quiet(x: View, call: RawCall) -> bool
    ensures { result ≡ is_quiet x call }
{
    if call.number == 22 {
        !plans::takes(x) && x.room
    } else {
        19 <= call.number && call.number <= 21
    }
}

// At most the level and the change of flow change.
#[tactic(auto, unfolding(crate::specs::Quiet::calm_patch))]
fn calm(answer: u32, level: u32, flow: bool) -> Patch
    ensures { result ≡ calm_patch answer level flow }
{
    crate::quiet_patch(Way::Calm, answer, level, flow)
}

// Nothing changes, but that the events of an earlier call are forgotten.
#[tactic(auto, unfolding(crate::specs::Quiet::still_patch))]
pub fn still(x: View, answer: u32) -> Patch
    ensures { result ≡ still_patch x answer }
{
    if x.events == 0 {
        crate::quiet_patch(Way::Idle, answer, 0, false)
    } else {
        calm(answer, x.flags.int_level, x.change_of_flow)
    }
}

// Whether a trace is asked for: `asks_trace` of `pending`, of a view, for a record would be copied (docs/DECISIONS.md, 57).
#[tactic(auto, unfolding(crate::specs::Quiet::asks))]
fn asks(x: View) -> bool
    ensures { result ≡ asks x }
{
    x.flags.sr_save / 0x8000 % 2 == 1 || x.flags.sr_save / 0x4000 % 2 == 1 && x.change_of_flow
}

// `check_interrupts`: by the raw fields, of a view, for a record would be copied (docs/DECISIONS.md, 57).
#[tactic(auto, unfolding(crate::specs::Quiet::checks))]
fn checks(x: View) -> bool
    ensures { result ≡ checks x }
{
    x.flags.int_level == 7 || x.flags.int_mask / 256 < x.flags.int_level
}

#[tactic(auto, unfolding(crate::specs::Quiet::quiet_of, crate::specs::Quiet::calm_patch))]
pub fn patch_of(x: View, call: RawCall) -> Patch
    ensures { result ≡ quiet_of x call }
{
    match call.number {
        22 => still(x, 0),
        21 => still(x, checks(x) as u32),
        20 => calm(0, call.a % 8, x.change_of_flow),
        _ => calm(asks(x) as u32, x.flags.int_level, false),
    }
}
