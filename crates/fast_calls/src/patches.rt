// A patch laid into the record, group by group: those that a lent record has otherwise, with bytes for bools. The others the patch lays itself.
ghost use Rattle.std.specs.Prelude.{◌≡◌};
ghost use Rattle.fast_laws.specs.Patched.{patch_cpu, patch_of, calm_of, Fetched};

use boundary::RawAnswer;
use cpu::{Cpu, Fault, Flow, OptionalVector, Queue};
use fast_plans::Patch;
use memory::Core;

#[tactic(auto, unfolding(fast_laws::specs::Patched::patch_cpu, fast_plans::specs::Patched::patched_cycles, fast_plans::specs::Patched::patched_fpiar))]
fn patched_flow(c: Cpu, q: Patch) -> Flow
    ensures { result ≡ (patch_cpu c q).flow }
{
    let mut f = c.flow;
    f.pc = q.pc;
    f.fpiar = q.fpiar(f.ppc, f.fpiar);
    f.stopped = q.stopped;
    f.loop_mode = false;
    f.cycles_remaining = q.cycles(f.cycles_remaining, f.cpu_type);
    f
}

#[tactic(auto, unfolding(fast_laws::specs::Patched::patch_cpu, fast_plans::specs::Patched::patched_words, fast_plans::specs::Patched::patched_count))]
fn patched_queue(c: Cpu, q: Patch) -> Queue
    ensures { result ≡ (patch_cpu c q).queue }
{
    let mut f = c.queue;
    f.prefetch_queue = q.queue(f.prefetch_queue);
    f.prefetch_count = q.queue_count(f.prefetch_count);
    f.pending_sync_clocks = 0;
    f
}

#[tactic(auto, unfolding(fast_laws::specs::Patched::patch_cpu))]
fn patched_fault(c: Cpu, q: Patch) -> Fault
    ensures { result ≡ (patch_cpu c q).fault }
{
    let v = OptionalVector {
        some: true,
        value: q.vector,
    };
    let mut f = c.fault;
    f.instruction_exception_vector = v;
    f.last_exception_vector = v;
    f.pending_fault_wdata = q.last;
    f
}

#[tactic(auto, unfolding(fast_laws::specs::Patched::patch_cpu, fast_plans::specs::Patched::patched_regs, fast_plans::specs::Patched::patched_flags))]
fn patched_cpu(c: Cpu, q: Patch) -> Cpu
    ensures { result ≡ patch_cpu c q }
{
    let mut d = c;
    d.regs = q.regs(c.regs);
    d.flow = patched_flow(c, q);
    d.flags = q.flags(c.flags);
    d.queue = patched_queue(c, q);
    d.fault = patched_fault(c, q);
    d
}

// Record and bus after an entry.
#[tactic(auto, unfolding(fast_laws::specs::Patched::patch_of))]
pub(crate) fn patched(mut m: Core, q: Patch) -> Core
    ensures { result ≡ patch_of m q }
{
    m.cpu = patched_cpu(m.cpu, q);
    m.bus.events = q.events;
    m
}

// Record and bus after a call that makes no access.
#[tactic(auto, unfolding(fast_laws::specs::Patched::calm_of, fast_plans::specs::Patched::calmed_flags))]
pub(crate) fn calmed(mut m: Core, q: Patch) -> Core
    ensures { result ≡ calm_of m q }
{
    m.cpu.flow.change_of_flow = q.flow;
    m.cpu.flags = q.calm_flags(m.cpu.flags);
    m.bus.events = 0;
    m
}

// What a call that is not refused hands back, m being record and bus after it.
pub(crate) fn said(m: Core, q: Patch) -> RawAnswer
    ensures { (result ≡ record { core = m; refused = 0; answer = q.answer; events = q.events }) × Fetched q }
{
    RawAnswer {
        core: m,
        refused: 0,
        answer: q.answer,
        events: q.events,
    }
}
