// Where the jump of an entry lands, found before anything is written.
ghost use Rattle.std.specs.Prelude.{◌≡◌, ◌+◌, ◌≤◌, length, nat_lt};
ghost use Rattle.fast.specs.Landings.{meets, queued_of, landing_of, landing_in};

use crate::bytes;
use fast_plans::{View, places};

// A jump: the address of its vector, the handler, and the two words of the queue where there is one.
#[derive(Clone, Copy)]
pub struct Landing {
    pub from: u32,
    pub pc: u32,
    pub first: u16,
    pub second: u16,
}

// The 4 bytes at place p and the n bytes at place s have a byte in common.
#[tactic(auto, unfolding(crate::specs::Landings::meets))]
fn meets(p: usize, s: usize, n: u32) -> bool
    requires { p ≤ 0x500000000 }
    ensures { result ≡ meets p s n }
{
    s < p + 4 && (p <= s || p - s < n as usize)
}

// The two words of the queue at an even handler in the store, apart from the frame.
#[tactic(auto, unfolding(crate::specs::Landings::queued_of))]
fn queued(x: View, store: &[u8], from: u32, to: u32, s: usize, n: u32) -> Option<Landing>
    ensures { result ≡ queued_of x store.now from to s n }
{
    if to % 2 == 1 {
        return None;
    }
    if to < x.base {
        return None;
    }
    let p = (to - x.base) as usize;
    if store.len() < p + 4 {
        return None;
    }
    if meets(p, s, n) {
        return None;
    }
    Some(Landing {
        from,
        pc: to,
        first: bytes::get_word(store, p) as u16,
        second: bytes::get_word(store, p + 2) as u16,
    })
}

// The jump by a vector whose long word is in the store, apart from the frame.
#[tactic(auto, unfolding(crate::specs::Landings::landing_of, crate::specs::Landings::vector_at))]
pub(crate) fn landing_of(x: View, store: &[u8], v: u32, s: usize, n: u32) -> Option<Landing>
    requires { x.base + length store.now ≤ 0x100000000 }
    ensures { result ≡ landing_of x store.now v s n }
{
    let a = v as usize * 4 + x.vbr as usize;
    if a < x.base as usize {
        return None;
    }
    let p = a - x.base as usize;
    if store.len() < p + 4 {
        return None;
    }
    if meets(p, s, n) {
        return None;
    }
    let to = bytes::get_long(store, p);
    if places::fetches(x) {
        return queued(x, store, a as u32, to, s, n);
    }
    Some(Landing {
        from: a as u32,
        pc: to,
        first: 0,
        second: 0,
    })
}

// Whether so many bytes at a base end past the addresses of 32 bits.
fn ends_far(base: u32, stored: usize) -> bool
    requires { stored ≤ 0x100000000 }
    ensures { result ≡ nat_lt 0x100000000 (base + stored) }
{
    0x100000000 < base as usize + stored
}

// The same for a caller that has not tested where the store ends.
#[tactic(auto, unfolding(crate::specs::Landings::landing_in))]
pub fn landing_in(x: View, store: &[u8], v: u32, s: usize, n: u32) -> Option<Landing>
    ensures { result ≡ landing_in x store.now v s n }
{
    if 0x100000000 < store.len() || ends_far(x.base, store.len()) {
        return None;
    }
    landing_of(x, store, v, s, n)
}
