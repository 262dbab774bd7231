// A patch laid into the groups of a lent record. Here are those that have bytes for C where the core has bools; the others the patch lays itself.
ghost use Rattle.std.specs.Prelude.{◌≡◌};
ghost use Rattle.attempts.specs.Attempts.{patched_flow, patched_queue, patched_fault, patched_cpu, calmed_flow, calmed_cpu};

use fast_plans::Patch;
use records::{LentCpu, LentFault, LentFlow, LentQueue, LentVector};

#[tactic(auto, unfolding(crate::specs::Attempts::patched_flow, fast_plans::specs::Patched::patched_cycles, fast_plans::specs::Patched::patched_fpiar))]
fn patched_flow(mut f: LentFlow, q: Patch) -> LentFlow
    ensures { result ≡ patched_flow f q }
{
    f.pc = q.pc;
    f.fpiar = q.fpiar(f.ppc, f.fpiar);
    f.stopped = q.stopped;
    f.loop_mode = 0;
    f.cycles_remaining = q.cycles(f.cycles_remaining, f.cpu_type);
    f
}

#[tactic(auto, unfolding(crate::specs::Attempts::patched_queue, fast_plans::specs::Patched::patched_words, fast_plans::specs::Patched::patched_count))]
fn patched_queue(mut f: LentQueue, q: Patch) -> LentQueue
    ensures { result ≡ patched_queue f q }
{
    let words = q.queue(f.prefetch_queue);
    f.prefetch_queue = words;
    f.prefetch_count = q.queue_count(f.prefetch_count);
    f.pending_sync_clocks = 0;
    f
}

#[tactic(auto, unfolding(crate::specs::Attempts::patched_fault))]
fn patched_fault(mut f: LentFault, q: Patch) -> LentFault
    ensures { result ≡ patched_fault f q }
{
    let v = LentVector {
        some: 1,
        value: q.vector,
    };
    f.instruction_exception_vector = v;
    f.last_exception_vector = v;
    f.pending_fault_wdata = q.last;
    f
}

#[tactic(auto, unfolding(crate::specs::Attempts::patched_cpu))]
pub(crate) fn patched_cpu(d: LentCpu, q: Patch) -> LentCpu
    ensures { result ≡ patched_cpu d q }
{
    let mut c = d;
    c.regs = q.regs(d.regs);
    c.flow = patched_flow(d.flow, q);
    c.flags = q.flags(d.flags);
    c.queue = patched_queue(d.queue, q);
    c.fault = patched_fault(d.fault, q);
    c
}

#[tactic(auto, unfolding(crate::specs::Attempts::calmed_flow))]
fn calmed_flow(mut f: LentFlow, q: Patch) -> LentFlow
    ensures { result ≡ calmed_flow f q }
{
    f.change_of_flow = q.flow as u8;
    f
}

#[tactic(auto, unfolding(crate::specs::Attempts::calmed_cpu))]
pub(crate) fn calmed_cpu(d: LentCpu, q: Patch) -> LentCpu
    ensures { result ≡ calmed_cpu d q }
{
    let mut c = d;
    c.flow = calmed_flow(d.flow, q);
    c.flags = q.calm_flags(d.flags);
    c
}
