// `take_exception` and the interrupt call, which have exports of their own: what `go` says of them, by code for the shapes of each alone. A function
// that is called from two places is not inlined, and a call moves the view; so each has its own way to a frame, and none is shared with `enter`: speed.
ghost use Rattle.std.specs.Prelude.{◌≡◌, ◌+◌, ◌<◌, ◌≤◌, length};
ghost use Rattle.numbers.specs.Numbers.{exception_call, interrupt_call};
ghost use Rattle.fast_plans.specs.Plans.{Shaped, shape_number};
ghost use Rattle.fast.specs.Stacks.{Fits, tape, lay_at, lay_count};
ghost use Rattle.fast.specs.Patches.{enter_of, go_of, ended};

use crate::{bytes, landings, stacks};
use fast_plans::places::Spot;
use fast_plans::plans::{Plan, Shape};
use fast_plans::{Patch, View, places, plans, quiet};

// The frame of `take_exception`; how many events there are then.
#[tactic(auto, unfolding(crate::specs::Stacks::lay_at, crate::specs::Stacks::lay_count))]
fn lay_exception(x: View, store: &mut [u8], log: &mut [u32], s: Spot, p: Plan) -> u32
    requires { Fits s p.bytes store.old × Shaped p × (shape_number p.shape < 3) × (192 ≤ length log.old) }
    ensures { (result ≡ lay_count x p) × (result + 5 ≤ 64) × (tape store.new log.new ≡ lay_at x s p (tape store.old log.old)) }
{
    let c = stacks::waiting(x, p.clocks);
    let n = stacks::tell_clocks(log, 0, c);
    if let Shape::Short = p.shape {
        stacks::short(store, log, s, n, p);
    } else {
        stacks::three(store, log, s, n, p);
    }
    n + 3
}

// The frame of an interrupt; how many events there are then.
#[tactic(auto, unfolding(crate::specs::Stacks::lay_at, crate::specs::Stacks::lay_count))]
fn lay_interrupt(x: View, store: &mut [u8], log: &mut [u32], s: Spot, p: Plan) -> u32
    requires { Fits s p.bytes store.old × Shaped p × (3 < shape_number p.shape) × (192 ≤ length log.old) }
    ensures { (result ≡ lay_count x p) × (result + 5 ≤ 64) × (tape store.new log.new ≡ lay_at x s p (tape store.old log.old)) }
{
    let c = stacks::waiting(x, p.clocks);
    if let Shape::Late = p.shape {
        bytes::event(log, 0, 6, p.level, p.response);
        let k = stacks::tell_clocks(log, 1, c);
        stacks::short(store, log, s, k, p);
        return k + 3;
    }
    let n = stacks::tell_clocks(log, 0, c);
    if let Shape::Four = p.shape {
        stacks::four(store, log, s, n, p);
        return n + 5;
    }
    stacks::old(store, log, s, n, p, places::fetches(x))
}

#[tactic(auto, using(crate::specs::Laws::spot_fits, crate::specs::Laws::landing_fits), unfolding(crate::specs::Patches::enter_of, crate::specs::Patches::place_of, crate::specs::Patches::land_of, crate::specs::Patches::written_of))]
fn enter_exception(x: View, store: &mut [u8], log: &mut [u32], p: Plan) -> Patch
    requires { Shaped p × (shape_number p.shape < 3) × (192 ≤ length log.old) × (x.base + length store.old ≤ 0x100000000) }
    ensures { ended result store.new log.new ≡ enter_of x p store.old log.old }
{
    let Some(s) = places::spot_of(x, store.len(), p.bytes) else {
        return fast_plans::none();
    };
    let Some(l) = landings::landing_of(x, store, p.vector, s.place, p.bytes) else {
        return fast_plans::none();
    };
    let k = lay_exception(x, store, log, s, p);
    let e = stacks::tell_jump(log, k, l, places::fetches(x));
    crate::patch_by(x, p, s, l, e)
}

#[tactic(auto, using(crate::specs::Laws::spot_fits, crate::specs::Laws::landing_fits), unfolding(crate::specs::Patches::enter_of, crate::specs::Patches::place_of, crate::specs::Patches::land_of, crate::specs::Patches::written_of))]
fn enter_interrupt(x: View, store: &mut [u8], log: &mut [u32], p: Plan) -> Patch
    requires { Shaped p × (3 < shape_number p.shape) × (192 ≤ length log.old) × (x.base + length store.old ≤ 0x100000000) }
    ensures { ended result store.new log.new ≡ enter_of x p store.old log.old }
{
    let Some(s) = places::spot_of(x, store.len(), p.bytes) else {
        return fast_plans::none();
    };
    let Some(l) = landings::landing_of(x, store, p.vector, s.place, p.bytes) else {
        return fast_plans::none();
    };
    let k = lay_interrupt(x, store, log, s, p);
    let e = stacks::tell_jump(log, k, l, places::fetches(x));
    crate::patch_by(x, p, s, l, e)
}

// The fast way of `take_exception`.
#[tactic(auto, unfolding(crate::specs::Patches::go_of, crate::specs::Patches::enter_by, fast_plans::specs::Plans::plan_of, fast_plans::specs::Quiet::is_quiet, fast_plans::specs::Plans::row_of))]
pub fn take_exception(x: View, v: u32, store: &mut [u8], log: &mut [u32]) -> Patch
    ensures { ended result store.new log.new ≡ go_of x (exception_call v) store.old log.old }
{
    if !fast_plans::accepts(x, store.len(), log.len()) {
        return fast_plans::none();
    }
    match plans::exception_of(x, v) {
        Some(p) => enter_exception(x, store, log, p),
        None => fast_plans::none(),
    }
}

// The fast way of the interrupt call.
#[tactic(auto, using(fast_plans::specs::Laws::accepted_room, fast_plans::specs::Laws::interrupt_shaped, crate::proofs::Shapes::interrupt_large), unfolding(crate::specs::Patches::go_of, crate::specs::Patches::enter_by, fast_plans::specs::Plans::plan_of, fast_plans::specs::Quiet::is_quiet, fast_plans::specs::Quiet::quiet_of))]
pub fn check_and_service(x: View, store: &mut [u8], log: &mut [u32]) -> Patch
    ensures { ended result store.new log.new ≡ go_of x interrupt_call store.old log.old }
{
    if !fast_plans::accepts(x, store.len(), log.len()) || !x.room {
        return fast_plans::none();
    }
    if !plans::takes(x) {
        return quiet::still(x, 0);
    }
    enter_interrupt(x, store, log, plans::interrupt_plan(x))
}
