// Frames and events written, at places that were found before. What each function asks (`Fits`, `Shaped`, room in the log) stands in its contract and not
// in a type: store and log are lent slices throughout, and a plan that kept a proof in a ghost field would be equal to another only with its proof.
ghost use Rattle.std.specs.Prelude.{◌≡◌, ◌+◌, ◌<◌, ◌≤◌, true, length};
ghost use Rattle.types.specs.Kinds.{pick};
ghost use Rattle.fast.specs.Stacks.{Fits, tape, word_at, long_at, waiting_of, clocks_at, clocks_count, jump_at, jump_count, short_at, three_at, four_at, sync_at, sync_count, old_at, lay_at, lay_count};
ghost use Rattle.fast_plans.specs.Plans.{Shaped};

use crate::bytes;
use crate::landings::Landing;
use fast_plans::places::Spot;
use fast_plans::plans::{Plan, Shape};
use fast_plans::{View, places};

// A word at an offset of the frame, with its event.
#[tactic(auto, unfolding(crate::specs::Stacks::word_at))]
fn word(store: &mut [u8], log: &mut [u32], s: Spot, o: u32, n: u32, v: u32)
    requires { Fits s (o + 2) store.old × (v < 0x10000) × (n < 64) × (192 ≤ length log.old) }
    ensures { tape store.new log.new ≡ word_at s o n v (tape store.old log.old) }
{
    bytes::put_word(store, s.place + o as usize, v);
    bytes::event(log, n, 3, s.a7 + o, v);
}

// A long word, the same: another width, another event, and one function of the width would test it at each field.
#[tactic(auto, unfolding(crate::specs::Stacks::long_at))]
fn long(store: &mut [u8], log: &mut [u32], s: Spot, o: u32, n: u32, v: u32)
    requires { Fits s (o + 4) store.old × (n < 64) × (192 ≤ length log.old) }
    ensures { tape store.new log.new ≡ long_at s o n v (tape store.old log.old) }
{
    bytes::put_long(store, s.place + o as usize, v);
    bytes::event(log, n, 4, s.a7 + o, v);
}

// Status, address and format word, from the last down to the first.
#[tactic(auto, unfolding(crate::specs::Stacks::short_at))]
pub(crate) fn short(store: &mut [u8], log: &mut [u32], s: Spot, n: u32, p: Plan)
    requires { Fits s 8 store.old × Shaped p × (n + 3 ≤ 64) × (192 ≤ length log.old) }
    ensures { tape store.new log.new ≡ short_at s n p (tape store.old log.old) }
{
    word(store, log, s, 6, n, p.format);
    long(store, log, s, 2, n + 1, p.pc);
    word(store, log, s, 0, n + 2, p.sr);
}

// The frame of the 68000: PC low, the status, PC high.
#[tactic(auto, unfolding(crate::specs::Stacks::three_at))]
pub(crate) fn three(store: &mut [u8], log: &mut [u32], s: Spot, n: u32, p: Plan)
    requires { Fits s 6 store.old × Shaped p × (n + 3 ≤ 64) × (192 ≤ length log.old) }
    ensures { tape store.new log.new ≡ three_at s n p (tape store.old log.old) }
{
    word(store, log, s, 4, n, p.pc % 0x10000);
    word(store, log, s, 0, n + 1, p.sr);
    word(store, log, s, 2, n + 2, p.pc / 0x10000);
}

// An interrupt of the 68010: the acknowledge, then PC low, the status, PC high and the format word.
#[tactic(auto, unfolding(crate::specs::Stacks::four_at, crate::specs::Stacks::event_at))]
pub(crate) fn four(store: &mut [u8], log: &mut [u32], s: Spot, n: u32, p: Plan)
    requires { Fits s 8 store.old × Shaped p × (n + 5 ≤ 64) × (192 ≤ length log.old) }
    ensures { tape store.new log.new ≡ four_at s n p (tape store.old log.old) }
{
    bytes::event(log, n, 6, p.level, p.response);
    three(store, log, s, n + 1, p);
    word(store, log, s, 6, n + 4, p.format);
}

// 4 clocks of a bus that is precise; how many events there are then.
#[tactic(auto, unfolding(crate::specs::Stacks::sync_at, crate::specs::Stacks::sync_count))]
fn sync(log: &mut [u32], n: u32, precise: bool) -> u32
    requires { (n < 64) × (192 ≤ length log.old) }
    ensures { (result ≡ sync_count n precise) × (result ≤ n + 1) × (log.new ≡ sync_at n precise log.old) }
{
    if precise {
        bytes::event(log, n, 5, 0, 4);
        return n + 1;
    }
    n
}

// An interrupt of the 68000: PC low, the acknowledge between 4 clocks each, the status, PC high.
#[tactic(auto, unfolding(crate::specs::Stacks::old_at, crate::specs::Stacks::old_from))]
pub(crate) fn old(store: &mut [u8], log: &mut [u32], s: Spot, n: u32, p: Plan, precise: bool) -> u32
    requires { Fits s 6 store.old × Shaped p × (n + 6 ≤ 64) × (192 ≤ length log.old) }
    ensures { (result ≡ pick precise (n + 6) (n + 4)) × (tape store.new log.new ≡ old_at s n p precise (tape store.old log.old)) }
{
    word(store, log, s, 4, n, p.pc % 0x10000);
    let a = sync(log, n + 1, precise);
    bytes::event(log, a, 6, p.level, p.response);
    let b = sync(log, a + 1, precise);
    word(store, log, s, 0, b, p.sr);
    word(store, log, s, 2, b + 1, p.pc / 0x10000);
    b + 2
}

// The clocks that wait before the first write of an entry.
#[tactic(auto, unfolding(crate::specs::Stacks::waiting_of))]
pub(crate) fn waiting(x: View, n: u32) -> u32
    ensures { result ≡ waiting_of x n }
{
    if places::fetches(x) {
        x.clocks.wrapping_add(n)
    } else {
        x.clocks
    }
}

// Clocks that wait are told; how many events there are then.
#[tactic(auto, unfolding(crate::specs::Stacks::clocks_at, crate::specs::Stacks::clocks_count))]
pub(crate) fn tell_clocks(log: &mut [u32], n: u32, clocks: u32) -> u32
    requires { (n < 64) × (192 ≤ length log.old) }
    ensures { (result ≡ clocks_count n clocks) × (result ≤ n + 1) × (log.new ≡ clocks_at n clocks log.old) }
{
    if 0 < clocks {
        bytes::event(log, n, 5, 0, clocks);
        return n + 1;
    }
    n
}

// The frame of a plan; how many events there are then.
#[tactic(auto, unfolding(crate::specs::Stacks::lay_at, crate::specs::Stacks::lay_count))]
pub(crate) fn lay(x: View, store: &mut [u8], log: &mut [u32], s: Spot, p: Plan) -> u32
    requires { Fits s p.bytes store.old × Shaped p × (192 ≤ length log.old) }
    ensures { (result ≡ lay_count x p) × (result + 5 ≤ 64) × (tape store.new log.new ≡ lay_at x s p (tape store.old log.old)) }
{
    let c = waiting(x, p.clocks);
    if let Shape::Late = p.shape {
        bytes::event(log, 0, 6, p.level, p.response);
        let k = tell_clocks(log, 1, c);
        short(store, log, s, k, p);
        return k + 3;
    }
    let n = tell_clocks(log, 0, c);
    match p.shape {
        Shape::Short => {
            short(store, log, s, n, p);
            n + 3
        }
        Shape::Long => {
            long(store, log, s, 8, n, p.extra);
            short(store, log, s, n + 1, p);
            n + 4
        }
        Shape::Four => {
            four(store, log, s, n, p);
            n + 5
        }
        Shape::Old => old(store, log, s, n, p, places::fetches(x)),
        // `Late` is above
        Shape::Three | Shape::Late => {
            three(store, log, s, n, p);
            n + 3
        }
    }
}

// The events of the jump, from event n on; how many there are then.
#[tactic(auto, unfolding(crate::specs::Stacks::jump_at, crate::specs::Stacks::jump_count))]
pub(crate) fn tell_jump(log: &mut [u32], n: u32, l: Landing, fetched: bool) -> u32
    requires { (n + 5 ≤ 64) × (fetched ≡ true → l.pc + 2 < 0x100000000) × (192 ≤ length log.old) }
    ensures { (result ≡ jump_count n fetched) × (log.new ≡ jump_at n l fetched log.old) }
{
    bytes::event(log, n, 7, 0, 0);
    bytes::event(log, n + 1, 2, l.from, l.pc);
    if fetched {
        bytes::event(log, n + 2, 1, l.pc, l.first as u32);
        bytes::event(log, n + 3, 5, 0, 2);
        bytes::event(log, n + 4, 1, l.pc + 2, l.second as u32);
        return n + 5;
    }
    n + 2
}
