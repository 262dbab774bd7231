// A call as numbers: what the fast way reads of a record (`View`), which records it takes, where a frame lies (`places`), what an entry writes
// (`plans`), and what a call without an access leaves (`quiet`). Nothing here reads or writes a store or a log. It uses `numbers` for the call by
// number, `status`, `steps` and `types`; `fast` and `fast_frames` write what is planned here.
#![tactic(auto)]

use cpu::Flags;

mod patches; // a patch laid into a record
pub mod places; // where a frame lies
pub mod plans; // a call as data
pub mod quiet; // calls that make no access

ghost use Rattle.std.specs.Prelude.{◌≡◌, ◌+◌, ◌≤◌, ltb};
ghost use Rattle.fast_plans.specs.Views.{span_of, is_other, accepts_of};
ghost use Rattle.fast_plans.specs.Quiet.{quiet, no_patch};

// What the fast way reads of a record and its bus; the kind is the record's byte, any number.
#[derive(Clone, Copy)]
pub struct View {
    pub kind: u8,
    pub flags: Flags,
    pub a7: u32,
    pub user: u32,
    pub interrupt: u32,
    pub pc: u32,
    pub ppc: u32,
    pub vbr: u32,
    pub run_mode: u32,
    pub stopped: u32,
    pub exception: bool,
    pub change_of_flow: bool,
    pub room: bool,
    pub clocks: u32,
    pub precise: bool,
    pub overridden: bool,
    pub base: u32,
    pub windows: u32,
    pub responses: [u32; 8],
    pub events: u32,
}

// The way that a call goes.
#[derive(Clone, Copy)]
pub enum Way {
    Plain, // the fast way does not take it, and nothing was touched
    Idle, // nothing changes
    Calm, // no access is made, and at most the level and the change of flow change
    Entry, // an entry was made
}

// What a call leaves of record and bus, and what it answers. One struct for all ways: answer, events, level and flow are of more ways than one, and
// an enum would list them in each. `first` and `second` count where `fetches`, which the view says too.
#[derive(Clone, Copy)]
pub struct Patch {
    pub way: Way,
    pub fetches: bool,
    pub answer: u32,
    pub events: u32,
    pub user: u32,
    pub top: u32,
    pub a7: u32,
    pub pc: u32,
    pub first: u16,
    pub second: u16,
    pub last: u32,
    pub vector: u32,
    pub stopped: u32,
    pub mask: u32,
    pub level: u32,
    pub serviced: bool,
    pub flow: bool,
    pub noted: bool,
}

// The addresses of a kind: a store within them has no byte whose address is masked to another.
#[tactic(auto, unfolding(crate::specs::Views::span_of))]
fn span(kind: u8) -> usize
    ensures { result ≡ span_of kind }
{
    if kind < types::M68EC020 {
        0x1000000
    } else {
        0x100000000
    }
}

// Whether so many bytes at a base end past the addresses of the kind.
#[tactic(auto, unfolding(crate::specs::Views::span_of))]
fn ends_past(kind: u8, base: u32, stored: usize) -> bool
    requires { stored ≤ 65536 }
    ensures { result ≡ ltb (span_of kind) (base + stored) }
{
    span(kind) < base as usize + stored
}

// Whether the fast way takes such a record, store and log: none of the numbers 1, 2, 4 to 7 and 9 refuses the call, M is clear, no window counts,
// and the record is not faulted.
#[tactic(auto, unfolding(crate::specs::Views::accepts_of))]
pub fn accepts(x: View, stored: usize, logged: usize) -> bool
    ensures { result ≡ accepts_of x stored logged }
{
    !is_other(x.flags.s_flag)
        && x.flags.m_flag == 0
        && x.vbr % 2 != 1
        && !x.overridden
        && x.windows == 0
        && stored <= 65536
        && !ends_past(x.kind, x.base, stored)
        && 192 <= logged
        && x.kind <= types::M68060
        && x.run_mode != 1
}

// An S flag that is neither 0 nor 4.
#[tactic(auto, unfolding(crate::specs::Views::is_other))]
fn is_other(s: u32) -> bool
    ensures { result ≡ is_other s }
{
    s != 0 && s != 4
}

// A patch of no entry.
pub(crate) fn quiet_patch(way: Way, answer: u32, level: u32, flow: bool) -> Patch
    ensures { result ≡ quiet way answer level flow }
{
    Patch {
        way,
        fetches: false,
        answer,
        events: 0,
        user: 0,
        top: 0,
        a7: 0,
        pc: 0,
        first: 0,
        second: 0,
        last: 0,
        vector: 0,
        stopped: 0,
        mask: 0,
        level,
        serviced: false,
        flow,
        noted: false,
    }
}

// The fast way does not take the call.
#[tactic(auto, unfolding(crate::specs::Quiet::no_patch))]
pub fn none() -> Patch
    ensures { result ≡ no_patch }
{
    quiet_patch(Way::Plain, 0, 0, false)
}
