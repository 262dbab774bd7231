// The fast way of a call: what an entry, an interrupt or a check between instructions leaves, where nothing is refused, nothing faults and no
// window counts. Everything is tested first; then store and log are written, or nothing is. What the record becomes is said as numbers (`Patch`),
// so that no record is copied. It uses `fast_plans` for what is to be written, and `numbers` for the call by number; `attempts` and `fast_calls`
// try it before the plain way, and `fast_frames` uses its jumps.
#![tactic(auto)]

use fast_plans::places::Spot;
use fast_plans::plans::Plan;
use fast_plans::{Patch, View, Way, places};
use landings::Landing;
use numbers::RawCall;

mod bytes; // words, longs and events at places that are there
pub mod landings; // where a jump lands
pub mod own; // `take_exception` and the interrupt call, which have exports of their own
pub mod stacks; // frames and events written

ghost use Rattle.std.specs.Prelude.{◌≡◌, ◌+◌, ◌≤◌, length};
ghost use Rattle.fast_plans.specs.Plans.{Shaped};
ghost use Rattle.fast.specs.Patches.{patch_by, enter_of, go_of, ended};

// What an entry leaves: its plan p, its frame at s, its jump to l and how many events there are.
#[tactic(auto, unfolding(crate::specs::Patches::patch_by))]
pub(crate) fn patch_by(x: View, p: Plan, s: Spot, l: Landing, events: u32) -> Patch
    ensures { result ≡ patch_by x p s l events }
{
    Patch {
        way: Way::Entry,
        fetches: places::fetches(x),
        answer: p.answer,
        events,
        user: places::user(x),
        top: places::top(x),
        a7: s.a7,
        pc: l.pc,
        first: l.first,
        second: l.second,
        last: p.last,
        vector: p.vector,
        stopped: p.stopped,
        mask: p.mask,
        level: p.pending,
        serviced: p.serviced,
        flow: x.change_of_flow,
        noted: p.noted,
    }
}

// An entry by its plan: where the frame lies and where the jump lands are found before anything is written.
#[tactic(auto, using(crate::specs::Laws::spot_fits, crate::specs::Laws::landing_fits), unfolding(crate::specs::Patches::enter_of, crate::specs::Patches::place_of, crate::specs::Patches::land_of, crate::specs::Patches::written_of))]
fn enter(x: View, store: &mut [u8], log: &mut [u32], p: Plan) -> Patch
    requires { Shaped p × (192 ≤ length log.old) × (x.base + length store.old ≤ 0x100000000) }
    ensures { ended result store.new log.new ≡ enter_of x p store.old log.old }
{
    let Some(s) = places::spot_of(x, store.len(), p.bytes) else {
        return fast_plans::none();
    };
    let Some(l) = landings::landing_of(x, store, p.vector, s.place, p.bytes) else {
        return fast_plans::none();
    };
    let k = stacks::lay(x, store, log, s, p);
    let e = stacks::tell_jump(log, k, l, places::fetches(x));
    patch_by(x, p, s, l, e)
}

// The fast way of a call by number.
#[tactic(auto, unfolding(crate::specs::Patches::go_of, crate::specs::Patches::enter_by))]
pub fn go(x: View, call: RawCall, store: &mut [u8], log: &mut [u32]) -> Patch
    ensures { ended result store.new log.new ≡ go_of x call store.old log.old }
{
    if !fast_plans::accepts(x, store.len(), log.len()) {
        return fast_plans::none();
    }
    if fast_plans::quiet::is_quiet(x, call) {
        return fast_plans::quiet::patch_of(x, call);
    }
    match fast_plans::plans::plan_of(x, call) {
        Some(p) => enter(x, store, log, p),
        None => fast_plans::none(),
    }
}
