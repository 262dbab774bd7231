// Whether an instruction asks for a trace exception.
ghost use Rattle.std.specs.Prelude.{◌≡◌};
ghost use Rattle.pending.specs.Trace.{check_trace, asks_trace, trace_t0_sr_write, trace_t068040_sync, set_change_of_flow};

use cpu::Cpu;

// The record after a check, and whether a trace exception is asked for: both mean something whatever the other is.
#[derive(Clone, Copy)]
pub struct Traced {
    pub cpu: Cpu,
    pub trace: bool,
}

// `check_trace`: T1 of the status before the instruction, or T0 with a change of flow; the change of flow is forgotten.
#[tactic(auto, unfolding(crate::specs::Trace::check_trace))]
pub fn check_trace(c: Cpu) -> Traced
    ensures { result ≡ check_trace c }
{
    Traced {
        trace: asks_trace(c),
        cpu: set_change_of_flow(c, false),
    }
}

#[tactic(auto, unfolding(crate::specs::Trace::asks_trace))]
fn asks_trace(c: Cpu) -> bool
    ensures { result ≡ asks_trace c }
{
    c.flags.sr_save / 0x8000 % 2 == 1 || c.flags.sr_save / 0x4000 % 2 == 1 && c.flow.change_of_flow
}

// `trace_t0_sr_write`: a write to the status register counts as a change of flow from the 68020 on.
#[tactic(auto, unfolding(crate::specs::Trace::trace_t0_sr_write))]
pub fn trace_t0_sr_write(c: Cpu) -> Cpu
    ensures { result ≡ trace_t0_sr_write c }
{
    if types::is_pre_68020(c.flow.cpu_type) {
        c
    } else {
        set_change_of_flow(c, true)
    }
}

// `trace_t0_68040_sync`: so do the instructions that synchronize the 68040's pipeline.
#[tactic(auto, unfolding(crate::specs::Trace::trace_t068040_sync))]
pub fn trace_t0_68040_sync(c: Cpu) -> Cpu
    ensures { result ≡ trace_t068040_sync c }
{
    if types::is_040(c.flow.cpu_type) {
        set_change_of_flow(c, true)
    } else {
        c
    }
}

// whether the instruction changed the flow
#[tactic(auto, unfolding(crate::specs::Trace::set_change_of_flow))]
pub fn set_change_of_flow(mut c: Cpu, b: bool) -> Cpu
    ensures { result ≡ set_change_of_flow c b }
{
    c.flow.change_of_flow = b;
    c
}
