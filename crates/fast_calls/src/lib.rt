// The call by number and the return by value, the fast way first: what `fast` and `fast_return` take is done by numbers and laid into the
// record; what they do not take they have not touched, and it goes the plain way. The contracts are those of the plain ones, word for word. It uses
// `fast`, `fast_return`, `boundary`, `unwind`, `pending` and the record's crates; `sessions` uses it.
#![tactic(auto)]

use boundary::RawAnswer;
use fast_plans::Way;
use fast_return::ReturnPatch;
use memory::Core;
use numbers::RawCall;
use refusals::Refusal;
use unwind::Returned;

mod patches; // a patch laid into the record
mod views; // what the fast way reads of the record

ghost use Rattle.std.specs.Prelude.{◌≡◌};
ghost use Rattle.memory.specs.World.{world};
ghost use Rattle.boundary.specs.Calls.{outcome, raw_call};
ghost use Rattle.std.specs.Prelude.{Ok};
ghost use Rattle.unwind.specs.Unwind.{handed_back, return_from};
ghost use Rattle.fast_return.specs.Patch.{going, patch_returned};

// A call by number: `boundary::raw_call`.
pub fn raw_call(m: Core, store: &mut [u8], log: &mut [u32], call: RawCall) -> RawAnswer
    ensures { outcome (world result.core store.new log.new) result.refused result.answer result.events ≡ raw_call (world m store.old log.old) call }
{
    let q = fast::go(views::view(m), call, store, log);
    match q.way {
        Way::Entry => patches::said(patches::patched(m, q), q),
        Way::Calm => patches::said(patches::calmed(m, q), q),
        Way::Idle => patches::said(m, q),
        Way::Plain => boundary::raw_call(m, store, log, call),
    }
}

// The return by the patch of one that was tried and goes.
#[tactic(auto, unfolding(fast_return::specs::Patch::patch_returned))]
fn returned_by(m: Core, q: ReturnPatch) -> Returned
    ensures { handed_back m (Ok result) ≡ patch_returned m (going q) }
{
    Returned {
        core: fast_return::patched(m, q),
        row: q.row,
    }
}

// The return: `unwind::return_from`.
pub fn return_from(m: Core, store: &[u8]) -> Result<Returned, Refusal>
    ensures { handed_back m result ≡ return_from m store.now }
{
    match fast_return::try_return(m, store) {
        Some(q) => Ok(returned_by(m, q)),
        None => unwind::return_from(m, store),
    }
}
