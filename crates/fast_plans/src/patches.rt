// A patch laid into the groups of a record that the core's record and a lent one have alike.
ghost use Rattle.std.specs.Prelude.{◌≡◌};
ghost use Rattle.fast_plans.specs.Patched.{patched_regs, patched_flags, calmed_flags, patched_cycles, patched_words, patched_count, patched_fpiar};

use crate::Patch;
use cpu::{Flags, Regs};

impl Patch {
    // The registers after an entry: both saved pointers, and A7 at the frame. Every index is written out, so that the group stays where it is.
    #[tactic(auto, unfolding(crate::specs::Patched::patched_regs))]
    pub fn regs(self, mut r: Regs) -> Regs
        ensures { result ≡ patched_regs r self }
    {
        r.sp[0] = self.user;
        r.sp[4] = self.top;
        r.dar[15] = self.a7;
        r
    }

    // The flags after an entry: supervisor state, trace off, the mask and the level that waits.
    #[tactic(auto, unfolding(crate::specs::Patched::patched_flags))]
    pub fn flags(self, mut f: Flags) -> Flags
        ensures { result ≡ patched_flags f self }
    {
        f.t1_flag = 0;
        f.t0_flag = 0;
        f.s_flag = 4;
        f.int_mask = self.mask;
        f.int_level = self.level;
        f
    }

    // The flags after a call that makes no access.
    #[tactic(auto, unfolding(crate::specs::Patched::calmed_flags))]
    pub fn calm_flags(self, f: Flags) -> Flags
        ensures { result ≡ calmed_flags f self }
    {
        Flags {
            int_level: self.level,
            ..f
        }
    }

    // The cycles that remain of so many on a kind: those of an interrupt are taken off, where one was serviced.
    #[tactic(auto, unfolding(crate::specs::Patched::patched_cycles))]
    pub fn cycles(self, remaining: i32, kind: u8) -> i32
        ensures { result ≡ patched_cycles remaining kind self }
    {
        if self.serviced {
            pending::interrupts::less_cycles(remaining, kind == types::M68010)
        } else {
            remaining
        }
    }

    // FPIAR is the instruction's address where the entry notes it.
    #[tactic(auto, unfolding(crate::specs::Patched::patched_fpiar))]
    pub fn fpiar(self, ppc: u32, fpiar: u32) -> u32
        ensures { result ≡ patched_fpiar ppc fpiar self }
    {
        if self.noted { ppc } else { fpiar }
    }

    // The words of the queue, where two were fetched.
    #[tactic(auto, unfolding(crate::specs::Patched::patched_words))]
    pub fn queue(self, mut words: [u16; 2]) -> [u16; 2]
        ensures { result ≡ patched_words words self }
    {
        if self.fetches {
            words[0] = self.first;
            words[1] = self.second;
        }
        words
    }

    // How many words the queue has.
    #[tactic(auto, unfolding(crate::specs::Patched::patched_count))]
    pub fn queue_count(self, count: u8) -> u8
        ensures { result ≡ patched_count count self }
    {
        if self.fetches { 2 } else { count }
    }
}
