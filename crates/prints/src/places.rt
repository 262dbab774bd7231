// A line laid into a slice at a place, for those whose buffer is a slice of any length: the place after the line is answered.

ghost use Rattle.std.specs.Prelude.{◌≡◌, ◌+◌, ◌≤◌, length};
ghost use Rattle.prints.specs.Prints.{before, state_line, row_line, refused_line, laid_at};

use crate::LINE_LIMIT;
use arrayvec::ArrayVec;

// Bytes that are no longer than a line, where there is room for every line.
#[tactic(auto, unfolding(crate::specs::Prints::before, crate::specs::Prints::more, crate::specs::Prints::laid_at))]
fn lay(out: &mut [u8], at: usize, line: &[u8]) -> usize
    requires { length line.now ≤ 34 }
    ensures line { before result out.new ≡ laid_at at out.old line.now }
    ensures bound { result ≤ at + length line.now }
{
    if LINE_LIMIT <= out.len().saturating_sub(at) {
        out[at..at + line.len()].copy_from_slice(line);
        return at + line.len();
    }
    at
}

/// Cycles, PC, status and A7, where there is room after the place.
#[tactic(auto, unfolding(crate::specs::Prints::more, crate::specs::Prints::laid))]
pub fn state_line_at(out: &mut [u8], at: usize, cycles: u32, pc: u32, sr: u32, a7: u32) -> usize
    ensures line { before result out.new ≡ laid_at at out.old (state_line cycles pc sr a7) }
    ensures bound { result ≤ at + 34 }
{
    let mut text = ArrayVec::<u8, LINE_LIMIT>::new();
    crate::state_line(&mut text, cycles, pc, sr, a7);
    lay(out, at, &text)
}

/// A row of a walk: format, status, address, offset, where there is room after the place.
#[tactic(auto, unfolding(crate::specs::Prints::more, crate::specs::Prints::laid))]
pub fn row_line_at(
    out: &mut [u8],
    at: usize,
    format: u32,
    status: u32,
    address: u32,
    offset: u32,
) -> usize
    ensures line { before result out.new ≡ laid_at at out.old (row_line format status address offset) }
    ensures bound { result ≤ at + 20 }
{
    let mut text = ArrayVec::<u8, LINE_LIMIT>::new();
    crate::row_line(&mut text, format, status, address, offset);
    lay(out, at, &text)
}

/// A refusal and its number, where there is room after the place.
#[tactic(auto, unfolding(crate::specs::Prints::more, crate::specs::Prints::laid))]
pub fn refused_line_at(out: &mut [u8], at: usize, n: u32) -> usize
    ensures line { before result out.new ≡ laid_at at out.old (refused_line n) }
    ensures bound { result ≤ at + 19 }
{
    let mut text = ArrayVec::<u8, LINE_LIMIT>::new();
    crate::refused_line(&mut text, n);
    lay(out, at, &text)
}
