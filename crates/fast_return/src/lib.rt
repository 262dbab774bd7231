// Return and walk for the usual case: no windows, and a frame that lies in one run of the store. What is not usual goes the plain way of
// `unwind`, and both are proved equal to it. A return is tried on a record that is only read, and says what changes in a few numbers, so
// that the record stays where it is; a walk goes over the six numbers that tell where the next frame lies. It uses `unwind`, `refusals`,
// `memory`, `cpu` and `types`, and the definitions of `status`; `attempts`, `fast_calls` and `sessions` use it.
#![tactic(auto)]

use cpu::{Cpu, Flags, Regs};
use memory::Core;
use quick::Run;
use seen::Seen;
use unwind::frames::Frame;
use unwind::returns::{Row, Stack, Walked};

pub mod accepted; // whether a call without windows is accepted
pub mod quick; // a frame in one run of the store
pub mod seen; // what a walk keeps of the record

ghost use Rattle.std.specs.Prelude.{◌≡◌, IfSome};
ghost use Rattle.cpu.specs.Fields.{kind_of};
ghost use Rattle.unwind.specs.Frames.{read};
ghost use Rattle.unwind.specs.Returns.{walk, take_frame};
ghost use Rattle.unwind.specs.Unwind.{return_from, walk_from};
ghost use Rattle.fast_return.specs.Quick.{as_found};
ghost use Rattle.fast_return.specs.Seen.{banked_regs, back_flags};
ghost use Rattle.fast_return.specs.Patch.{going, tried, found_patch, patch_back, patch_returned};

// A return that goes: its row and the frame that it takes.
#[derive(Clone, Copy, PartialEq, Eq, Debug)]
pub struct ReturnPatch {
    pub row: Row,
    pub frame: Frame,
}

fn run_of<'a>(m: Core, store: &'a [u8]) -> Run<'a>
    ensures { (result.store ≡ store.entry) × (result.base ≡ m.bus.base) × (result.kind ≡ kind_of m.cpu) }
{
    Run {
        store,
        base: m.bus.base,
        kind: cpu::fields::kind(m.cpu),
    }
}

// The return by a frame that was found. A frame of format 1 has another one under it, and goes the plain way.
#[tactic(auto, unfolding(crate::specs::Patch::found_patch, crate::specs::Patch::no_patch, crate::specs::Patch::done_patch))]
fn patch_of(found: Option<Frame>) -> Option<ReturnPatch>
    ensures { tried result ≡ found_patch (as_found found) }
{
    let frame = found?;
    if frame.format == 1 {
        return None;
    }
    Some(ReturnPatch {
        row: Row::of(frame.format, frame),
        frame,
    })
}

// The return, tried on a record that is only read; where it gives none the plain return is to be called.
pub fn try_return(m: Core, store: &[u8]) -> Option<ReturnPatch>
    ensures { IfSome result (λ q. return_from m store.now ≡ patch_returned m (going q)) }
{
    if !accepted::accepted(m, store.len()) {
        return None;
    }
    patch_of(run_of(m, store).find(cpu::fields::a7(m.cpu)))
}

// A7 and the saved pointers, by indexes that are written out, so that the registers stay where they are.
#[tactic(auto, unfolding(crate::specs::Seen::banked_regs))]
fn banked_regs(mut regs: Regs, y: Seen) -> Regs
    ensures { result ≡ banked_regs regs y }
{
    regs.sp[0] = y.user;
    regs.sp[4] = y.interrupt;
    regs.sp[6] = y.master;
    regs.dar[15] = y.a7;
    regs
}

// The flags of a status that a return puts back, under the kind's mask and with M as stacked: `put_back_sr` on the flags alone, for
// a record that went through it would be copied (docs/DECISIONS.md, 57).
#[tactic(auto, unfolding(crate::specs::Seen::back_flags, status::specs::Status::decompose))]
fn back_flags(kind: u8, f: Flags, status: u16) -> Flags
    ensures { result ≡ back_flags kind f status }
{
    let n = u32::from(types::mask_status(kind, status));
    Flags {
        t1_flag: n / 0x8000 % 2 * 32768,
        t0_flag: n / 0x4000 % 2 * 16384,
        s_flag: n / 0x2000 % 2 * 4,
        m_flag: n / 0x1000 % 2 * 2,
        x_flag: n / 16 % 2 * 256,
        n_flag: n / 8 % 2 * 128,
        not_z_flag: 1 - n / 4 % 2,
        v_flag: n / 2 % 2 * 128,
        c_flag: n % 2 * 256,
        int_mask: n / 256 % 8 * 256,
        ..f
    }
}

// Numbers first, then the record: a test while the record is copied would keep the copy.
fn patched_cpu(c: Cpu, f: Frame) -> Cpu
    ensures { result ≡ take_frame c (read f) }
{
    let kind = cpu::fields::kind(c);
    let y = Seen::of(c).taken(kind, f);
    let flags = back_flags(kind, c.flags, f.status);
    let regs = banked_regs(c.regs, y);
    let mut d = cpu::clocks::clear_prefetch(cpu::fields::set_pc(c, f.address));
    d.regs = regs;
    d.flags = flags;
    d
}

// The record after a return that was tried and goes.
#[tactic(auto, unfolding(crate::specs::Patch::patch_back))]
pub fn patched(m: Core, q: ReturnPatch) -> Core
    ensures { result ≡ patch_back m (going q) }
{
    memory::with_cpu(m, patched_cpu(m.cpu, q.frame))
}

// The walk of n on a copy, into the lent rows: `unwind::walk`.
#[tactic(auto, using(crate::proofs::Walks::walk_accepted))]
pub fn walk(m: Core, store: &[u8], n: u32, rows: &mut [u32]) -> Walked
    ensures { walk result.refused result.count rows.new ≡ walk_from m store.now n rows.old }
{
    if !accepted::accepted(m, store.len()) {
        return unwind::walk(m, store, n, rows);
    }
    unwind::returns::rows_of(&run_of(m, store), Seen::of(m.cpu), n, rows)
}
