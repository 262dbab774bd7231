// Where the frame of an entry lies.
ghost use Rattle.std.specs.Prelude.{◌≡◌};
ghost use Rattle.fast_plans.specs.Places.{fetches_of, top_of, user_of, spot_of};

use crate::View;

// A frame of n bytes: its lowest address, A7 then, and the place of it in the store.
#[derive(Clone, Copy)]
pub struct Spot {
    pub a7: u32,
    pub place: usize,
}

// `prefetch_enabled`, of a view.
#[tactic(auto, unfolding(crate::specs::Places::fetches_of, types::specs::Kinds::is_prefetch_kind))]
pub fn fetches(x: View) -> bool
    ensures { result ≡ fetches_of x }
{
    x.precise && (x.kind == types::M68000 || x.kind == types::M68010)
}

// The supervisor stack pointer, M being clear.
#[tactic(auto, unfolding(crate::specs::Places::top_of))]
pub fn top(x: View) -> u32
    ensures { result ≡ top_of x }
{
    if x.flags.s_flag == 0 {
        x.interrupt
    } else {
        x.a7
    }
}

// The user stack pointer.
#[tactic(auto, unfolding(crate::specs::Places::user_of))]
pub fn user(x: View) -> u32
    ensures { result ≡ user_of x }
{
    if x.flags.s_flag == 0 { x.a7 } else { x.user }
}

// A frame of n bytes below the supervisor's pointer, within the store and at an even address.
#[tactic(auto, unfolding(crate::specs::Places::spot_of))]
pub fn spot_of(x: View, stored: usize, n: u32) -> Option<Spot>
    ensures { result ≡ spot_of x stored n }
{
    let t = top(x);
    if t < n {
        return None;
    }
    let a7 = t - n;
    if a7 < x.base {
        return None;
    }
    let place = (a7 - x.base) as usize;
    if stored < place + n as usize {
        return None;
    }
    if a7 % 2 == 1 {
        return None;
    }
    Some(Spot { a7, place })
}
