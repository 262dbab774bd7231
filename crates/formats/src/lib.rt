// The frames of exceptions that are no errors, and the words of format and vector in them. It uses `frames`; `exceptions` and
// `interrupts` use it, and so do the theorems about them.
#![tactic(auto)]

ghost use Rattle.std.specs.Prelude.{◌≡◌, ◌%◌};
ghost use Rattle.formats.specs.Formats.{format_word, offset_word, short_frame, long_frame, disabled_frame};

use frames::{Frame, long, word};

// The word of a format below 16 and a vector.
#[tactic(auto, unfolding(crate::specs::Formats::format_word))]
pub fn format_word(format: u32, v: u32) -> u32
    ensures { result ≡ format_word (format % 16) v }
{
    format % 16 * 0x1000 + v % 1024 * 4
}

// The offset of a vector, 16 bits.
#[tactic(auto, unfolding(crate::specs::Formats::offset_word))]
pub fn offset_word(v: u32) -> u16
    ensures { result ≡ offset_word v }
{
    (v % 0x4000 * 4) as u16
}

// 8 bytes.
#[tactic(auto, unfolding(crate::specs::Formats::short_frame))]
pub fn short_frame(sr: u32, pc: u32, format: u32) -> Frame
    ensures { result ≡ short_frame sr pc format }
{
    frames::framed(&[word(sr), long(pc), word(format)])
}

// Format 2.
#[tactic(auto, unfolding(crate::specs::Formats::long_frame))]
pub fn long_frame(sr: u32, pc: u32, format: u32, extra: u32) -> Frame
    ensures { result ≡ long_frame sr pc format extra }
{
    frames::framed(&[word(sr), long(pc), word(format), long(extra)])
}

// Format 4.
#[tactic(auto, unfolding(crate::specs::Formats::disabled_frame))]
pub fn disabled_frame(sr: u32, pc: u32, format: u32, ea: u32, extra: u32) -> Frame
    ensures { result ≡ disabled_frame sr pc format ea extra }
{
    frames::framed(&[word(sr), long(pc), word(format), long(ea), long(extra)])
}
