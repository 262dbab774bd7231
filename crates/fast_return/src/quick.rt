// A frame whose bytes lie in one run of a store without windows, read in place. Where they may not, or the pointer is odd, or the kind takes
// no such frame, there is none here, and it is read as `unwind` reads it. Words and longs are read here as in `fast`, of places that are known to
// be there, which no public function may ask.
ghost use Rattle.std.specs.Prelude.{◌≡◌, ◌+◌, ◌<◌, ◌≤◌, length, ◌==◌};
ghost use Rattle.types.specs.Kinds.{either};
ghost use Rattle.types.specs.Tables.{takes_format, format_length, frame_length};
ghost use Rattle.unwind.specs.Frames.{read, head_of};
ghost use Rattle.fast_return.specs.Rows.{bare_bus};
ghost use Rattle.fast_return.specs.Quick.{word_at, long_at, lies, taken_at, format_at, size_of, found_of, as_found};

use memory::Bus;
use refusals::Refusal;
use unwind::frames::Frame;
use unwind::returns::Frames;
use unwind::view::View;

// A store without windows; the kind is the record's byte, any number.
#[derive(Clone, Copy)]
pub struct Run<'a> {
    pub store: &'a [u8],
    pub base: u32,
    pub kind: u8,
}

// A bus of no window and no event.
#[tactic(auto, unfolding(crate::specs::Rows::bare_bus))]
fn bare(base: u32) -> Bus
    ensures { result ≡ bare_bus base }
{
    Bus {
        base,
        windows: 0,
        starts: [0; 8],
        lengths: [0; 8],
        responses: [0; 8],
        events: 0,
    }
}

fn is_of_three(n: u32, a: u32, b: u32, c: u32) -> bool
    ensures { result ≡ either (n == a) (either (n == b) (n == c)) }
{
    n == a || n == b || n == c
}

// Whether a kind takes frames of a format: the rule of `types::frame_length`, whose table is copied to the stack to look into it. By it a
// return of format 2 was 394 instructions for 343, a walk of 64 such frames 11,776 for 6,661. Kind 0 is tested first, for last its walk of such frames took
// more than 120 a row.
#[tactic(auto, using(crate::proofs::Sizes::takes_none), unfolding(types::specs::Tables::takes_format))]
fn takes(kind: u8, format: u32) -> bool
    ensures { result ≡ takes_format kind format }
{
    if kind == types::INVALID {
        is_of_three(format, 0, 2, 11)
    } else if kind == types::M68010 || kind == types::SCC68070 {
        format == 0 || format == 8
    } else if types::M68EC020 <= kind && kind <= types::M68030 {
        format <= 2 || format == 11
    } else if types::is_040(kind) {
        format <= 2 || format == 7
    } else if types::is_060(kind) {
        is_of_three(format, 0, 2, 4)
    } else {
        false
    }
}

#[tactic(auto, unfolding(types::specs::Tables::format_length))]
fn format_length(format: u32) -> u32
    ensures { result ≡ format_length format }
{
    match format {
        0 | 1 => 8,
        2 => 12,
        4 => 16,
        7 => 60,
        8 => 58,
        11 => 92,
        _ => 0,
    }
}

// The length of a frame whose format word is w: 6 on kind 1; every other kind takes format 0.
#[inline(always)]
#[tactic(auto, using(crate::proofs::Sizes::size_eight, crate::proofs::Sizes::size_none), unfolding(crate::specs::Quick::size_of, types::specs::Tables::frame_length))]
fn size_of(kind: u8, w: u32) -> u32
    ensures { result ≡ size_of kind w }
{
    if kind == types::M68000 {
        6
    } else if w < 0x1000 {
        if kind <= types::M68060 { 8 } else { 0 }
    } else if takes(kind, w / 0x1000) {
        format_length(w / 0x1000)
    } else {
        0
    }
}

impl<'a> Run<'a> {
    #[tactic(auto, unfolding(crate::specs::Quick::word_at))]
    fn word_at(&self, at: usize) -> u32
        requires { at + 1 < length self.now.store.now }
        ensures { (result ≡ word_at self.now.store.now at) × (result < 0x10000) }
    {
        u32::from(self.store[at]) * 0x100 + u32::from(self.store[at + 1])
    }

    #[tactic(auto, unfolding(crate::specs::Quick::long_at))]
    fn long_at(&self, at: usize) -> u32
        requires { at + 3 < length self.now.store.now }
        ensures { result ≡ long_at self.now.store.now at }
    {
        self.word_at(at) * 0x10000 + self.word_at(at + 2)
    }

    // Whether n bytes from a on lie in the store, below the top of the kind's addresses.
    #[tactic(auto, unfolding(crate::specs::Quick::lies))]
    fn lies_in(&self, a: u32, n: u32) -> bool
        ensures { result ≡ lies self.now.base (length self.now.store.now) self.now.kind a n }
    {
        if a < self.base || self.store.len() < (a - self.base) as usize + n as usize {
            return false;
        }
        unwind::view::is_straight(self.kind, a, n)
    }

    // The frame of n bytes at a place, w its format word, 0 on kind 1.
    #[tactic(auto, unfolding(crate::specs::Quick::taken_at))]
    fn taken_at(&self, at: usize, w: u32, n: u32) -> Frame
        requires { at + 5 < length self.now.store.now }
        ensures { read result ≡ (taken_at self.now.store.now at w n).frame }
    {
        Frame {
            format: w / 0x1000,
            status: self.word_at(at) as u16,
            address: self.long_at(at + 2),
            offset: w % 0x1000,
            size: n,
        }
    }

    // The format word of a frame at a place, 0 on kind 1.
    #[tactic(auto, unfolding(crate::specs::Quick::format_at, unwind::specs::Frames::head_of))]
    fn format_at(&self, at: usize) -> u32
        requires { at + head_of self.now.kind ≤ length self.now.store.now }
        ensures { (result ≡ format_at self.now.store.now at self.now.kind) × (result < 0x10000) }
    {
        if self.kind == types::M68000 {
            0
        } else {
            self.word_at(at + 6)
        }
    }

    // The frame at p. It is compiled into its callers: a call of it would move the frame.
    #[inline(always)]
    #[tactic(auto, using(crate::proofs::Finds::lies_fit), unfolding(crate::specs::Quick::found_of, crate::specs::Quick::found_in, crate::specs::Quick::found_word, crate::specs::Quick::found_sized, crate::specs::Quick::not_found, crate::specs::Quick::rest_lies, crate::specs::Quick::taken_at, unwind::specs::Frames::byte_address))]
    pub fn find(&self, p: u32) -> Option<Frame>
        ensures { as_found result ≡ found_of self.now.store.now self.now.base self.now.kind p }
    {
        if p % 2 == 1 {
            return None;
        }
        let a = types::mask_address(self.kind, p);
        let head = unwind::frames::head(self.kind);
        if !self.lies_in(a, head) {
            return None;
        }
        let at = (a - self.base) as usize;
        let w = self.format_at(at);
        let n = size_of(self.kind, w);
        if n != 0 && (n == head || self.lies_in(a, n)) {
            Some(self.taken_at(at, w, n))
        } else {
            None
        }
    }
}

impl<'a> Frames for Run<'a> {
    ghost use Rattle.unwind.specs.Frames.{sight};
    ghost use Rattle.fast_return.specs.Rows.{bare_bus};

    ghost sight = { λ r. sight r.kind (bare_bus r.base) r.store.now };

    fn kind(&self) -> u8 {
        self.kind
    }

    fn frame(&self, p: u32) -> Result<Frame, Refusal> {
        match self.find(p) {
            Some(frame) => Ok(frame),
            None => self.frame_under(p),
        }
    }

    fn frame_under(&self, p: u32) -> Result<Frame, Refusal> {
        let view = View {
            store: self.store,
            bus: bare(self.base),
            kind: self.kind,
        };
        view.frame_at(p)
    }
}
