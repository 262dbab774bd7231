// The fast way of entries whose frame is data: its fields, all guarded, are written from the last down to the first where nothing is refused
// and nothing faults. Everything is tested first, as in `fast`, and what the record becomes is said as numbers. It uses `fast` for the tests, the
// places and the jump, `frames` and `formats` for the frames and `numbers` for the call by number; `attempts` tries it before the plain way.
#![tactic(auto)]

use fast::landings::Landing;
use fast_plans::places::Spot;
use fast_plans::{Patch, View, Way, places};
use frames::{Field, Frame};
use numbers::RawCall;
use rows::FrameRow;

pub mod rows; // which entries there are, and their frames
mod writes; // bytes and events at places that are there

ghost use Rattle.std.specs.Prelude.{◌≡◌, ◌+◌, ◌<◌, ◌≤◌, length};
ghost use Rattle.memory.specs.World.{width_of};
ghost use Rattle.memory.specs.Log.{note_log};
ghost use Rattle.memory.specs.ByteLaws.{put};
ghost use Rattle.memory.specs.AccessLaws.{write_code, kept};
ghost use Rattle.unfaulted.specs.Closed.{told, laid, writes_of};
ghost use Rattle.unfaulted.specs.Pushes.{offset_of, pieces_of};
ghost use Rattle.fast.specs.Stacks.{Fits};
ghost use Rattle.fast.specs.Patches.{ended};
ghost use Rattle.fast_frames.specs.Entries.{Sized, patch_for, enter_of, go_of};

// A field at an offset of the frame, with event number n.
fn put_field(store: &mut [u8], log: &mut [u32], s: Spot, o: u32, n: u32, f: Field)
    requires { Fits s (o + width_of f.long) store.old × (n < 64) × (192 ≤ length log.old) }
    ensures { (store.new ≡ put f.long store.old (s.place + o) (kept f.long f.value)) × (log.new ≡ note_log n log.old (write_code f.long) (s.a7 + o) f.value) }
{
    let at = s.place + o as usize;
    let address = s.a7 + o;
    if f.long {
        writes::put_long(store, at, f.value);
        writes::event(log, n, 4, address, f.value);
    } else {
        writes::put_word(store, at, f.value % 0x10000);
        writes::event(log, n, 3, address, f.value);
    }
}

// The fields of a frame, from event n on: the event goes up by one where the offset goes down by a field's width, so no one iterator has both.
fn lay(store: &mut [u8], log: &mut [u32], s: Spot, n: u32, f: Frame, size: u32)
    requires { Fits s size store.old × Sized f size × (n ≤ 1) × (192 ≤ length log.old) }
    ensures { (store.new ≡ laid store.old s.place (pieces_of f f.count)) × (log.new ≡ told n log.old (writes_of s.a7 (pieces_of f f.count))) }
{
    let mut o = size;
    let mut e = n;
    for k in (0..f.count as usize).rev() {
        let y = f.fields[k];
        o = o - memory::width(y.long);
        put_field(store, log, s, o, e, y);
        e = e + 1;
    }
}

// What an entry leaves: its frame at s, its jump to l, the data of its last write and how many events there are: `patch_by` of `fast`, from a row in
// place of a plan.
#[tactic(auto, unfolding(crate::specs::Entries::patch_for))]
fn patch_for(x: View, r: FrameRow, s: Spot, l: Landing, last: u32, events: u32) -> Patch
    ensures { result ≡ patch_for x r s l last events }
{
    Patch {
        way: Way::Entry,
        fetches: places::fetches(x),
        answer: r.answer,
        events,
        user: places::user(x),
        top: places::top(x),
        a7: s.a7,
        pc: l.pc,
        first: l.first,
        second: l.second,
        last,
        vector: r.vector,
        stopped: x.stopped,
        mask: x.flags.int_mask,
        level: x.flags.int_level,
        serviced: false,
        flow: x.change_of_flow,
        noted: false,
    }
}

// An entry with its frame: where the frame lies and where the jump lands are found before anything is written.
#[tactic(auto, using(fast::specs::Laws::spot_fits, fast::specs::Laws::landing_fits), unfolding(crate::specs::Entries::enter_of, crate::specs::Entries::place_of, crate::specs::Entries::land_of, crate::specs::Entries::written_of, fast::specs::Landings::landing_in, frames::specs::Frames::field_at))]
fn enter(x: View, store: &mut [u8], log: &mut [u32], r: FrameRow, f: Frame) -> Patch
    requires { Sized f r.bytes × (192 ≤ length log.old) × (x.base + length store.old ≤ 0x100000000) }
    ensures { ended result store.new log.new ≡ enter_of x r f store.old log.old }
{
    let Some(s) = places::spot_of(x, store.len(), r.bytes) else {
        return fast_plans::none();
    };
    let Some(l) = fast::landings::landing_in(x, store, r.vector, s.place, r.bytes) else {
        return fast_plans::none();
    };
    let n = writes::tell_clocks(log, 0, x.clocks);
    lay(store, log, s, n, f, r.bytes);
    let e = writes::tell_jump(log, n + f.count as u32, l, places::fetches(x));
    patch_for(x, r, s, l, f.fields[0].value, e)
}

// The fast way of a call by number whose frame is data, on a record of which x is the view: the record keeps the data of the last write and a
// function code beside.
#[tactic(auto, unfolding(crate::specs::Entries::go_of, crate::specs::Entries::enter_by))]
pub fn go(x: View, wdata: u32, code: u8, call: RawCall, store: &mut [u8], log: &mut [u32]) -> Patch
    ensures { ended result store.new log.new ≡ go_of x wdata code call store.old log.old }
{
    if !fast_plans::accepts(x, store.len(), log.len()) {
        return fast_plans::none();
    }
    match rows::row_of(call.number, x.kind, code) {
        Some(r) => enter(x, store, log, r, rows::frame_of(x, wdata, call)),
        None => fast_plans::none(),
    }
}
