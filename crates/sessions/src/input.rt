// The bytes of the input, cut anywhere: the line that is not ended is kept, 81 bytes of it at most.
ghost use Rattle.std.specs.Prelude.{◌≡◌, [], ◌+◌, ◌≤◌, length, take};
ghost use Rattle.arrayvec.specs.ArrayVec.{array_vec_len};
ghost use Rattle.memory.specs.World.{world};
ghost use Rattle.sessions.specs.Sessions.{session, step};
ghost use Rattle.sessions.specs.Input.{under, take1, taken_all, finished};
ghost use Rattle.sessions.specs.Machines.{seen, reading, HasRoom, GrowsBy};

use crate::{Machine, Printed};
use arrayvec::ArrayVec;

/// A session in the middle of a line, of which the bytes so far are kept.
#[derive(Drop)]
pub struct Reader<'a> {
    pub machine: Machine<'a>,
    pub line: ArrayVec<u8, 81>,
}

impl Reader<'_> {
    // The line that is kept ends.
    fn end_line(&mut self, store: &mut [u8], log: &mut [u32], out: &mut Printed)
        requires { HasRoom 82000 out.old }
        ensures ends { reading self.new store.new log.new out.new ≡ under (step (seen self.old.machine store.old log.old out.old) self.old.line.items) [] }
        ensures bound { GrowsBy 82000 out.old out.new }
    {
        self.machine.step(store, log, out, self.line.as_slice());
        self.line.clear();
    }

    // One byte. Of a line over 80 bytes, 81 are kept.
    fn take(&mut self, store: &mut [u8], log: &mut [u32], out: &mut Printed, b: u8)
        requires { HasRoom 82000 out.old }
        ensures takes { reading self.new store.new log.new out.new ≡ take1 (reading self.old store.old log.old out.old) b }
        ensures bound { GrowsBy 82000 out.old out.new }
        ensures quiet { (b ≡ 10 → ⊥) → array_vec_len out.new ≡ array_vec_len out.old }
    {
        if b == b'\n' {
            self.end_line(store, log, out);
        } else if !self.line.is_full() {
            self.line.push(b);
        }
    }

    /// A block of the input, cut anywhere, or the first part of it, until less room is left than the longest answer may take. What was
    /// printed before is dropped. It answers how many bytes were taken; where a block has bytes, that is one at least.
    // Not put into the program's loop, where the bytes of a long line took a fifth more time.
    #[inline(never)]
    pub fn take_block(
        &mut self,
        store: &mut [u8],
        log: &mut [u32],
        out: &mut Printed,
        bytes: &[u8],
    ) -> usize
        ensures used { result ≤ length bytes.now }
        ensures some { result ≡ 0 → length bytes.now ≡ 0 }
        ensures room { array_vec_len out.new ≤ 163840 }
        ensures taken { reading self.new store.new log.new out.new ≡ taken_all (under (session (world self.old.machine.core store.old log.old) []) self.old.line.items) (take result bytes.now) }
    {
        out.clear();
        for (used, &b) in bytes.iter().enumerate() {
            self.take(store, log, out, b);
            // Only a line that ends prints, so only then less room is left.
            if b == b'\n' && !crate::has_room(out) {
                return used + 1;
            }
        }
        bytes.len()
    }

    /// The end of the input. What was printed before is dropped.
    pub fn finish(&mut self, store: &mut [u8], log: &mut [u32], out: &mut Printed)
        ensures room { array_vec_len out.new ≤ 163840 }
        ensures finished { seen self.new.machine store.new log.new out.new ≡ finished (under (session (world self.old.machine.core store.old log.old) []) self.old.line.items) }
    {
        out.clear();
        if !self.line.is_empty() {
            self.end_line(store, log, out);
        }
    }
}
