// What the fast way reads of a lent record. `fast_calls` has the same of the record of the core: where that has bools, C has bytes.
ghost use Rattle.std.specs.Prelude.{◌≡◌};
ghost use Rattle.records.specs.Records.{raised};
ghost use Rattle.fast_plans.specs.Views.{view_of};
ghost use Rattle.fast_laws.specs.Patched.{Words};
ghost use Rattle.attempts.specs.Attempts.{is_tidy};

use fast_plans::View;
use records::LentCore;

#[tactic(auto, unfolding(fast_plans::specs::Views::view_of, numbers::specs::Numbers::flag, records::specs::Records::raised, records::specs::Records::raised_cpu, records::specs::Records::raised_flow, records::specs::Records::raised_queue, records::specs::Records::raised_fault, records::specs::Records::raised_code, pending::specs::Interrupts::has_cycles))]
pub(crate) fn view(c: LentCore) -> View
    ensures { (result ≡ view_of (raised c)) × Words (raised c) }
{
    View {
        kind: c.cpu.flow.cpu_type,
        flags: c.cpu.flags,
        a7: c.cpu.regs.dar[15],
        user: c.cpu.regs.sp[0],
        interrupt: c.cpu.regs.sp[4],
        pc: c.cpu.flow.pc,
        ppc: c.cpu.flow.ppc,
        vbr: c.cpu.flow.vbr,
        run_mode: c.cpu.flow.run_mode,
        stopped: c.cpu.flow.stopped,
        exception: c.cpu.flow.exception_processing != 0,
        change_of_flow: c.cpu.flow.change_of_flow != 0,
        room: pending::interrupts::has_room(c.cpu.flow.cycles_remaining),
        clocks: c.cpu.queue.pending_sync_clocks,
        precise: c.cpu.queue.precise_bus != 0,
        overridden: c.cpu.fault.mmu_fc_override.some != 0,
        base: c.bus.base,
        windows: c.bus.windows,
        responses: c.bus.responses,
        events: c.bus.events,
    }
}

// Every flag byte is 0 or 1, as the core would lend it.
#[tactic(auto, unfolding(crate::specs::Attempts::is_tidy))]
pub(crate) fn is_tidy(c: LentCore) -> bool
    ensures { result ≡ is_tidy c }
{
    c.cpu.flow.exception_processing < 2
        && c.cpu.flow.change_of_flow < 2
        && c.cpu.flow.loop_mode < 2
        && c.cpu.queue.precise_bus < 2
        && c.cpu.fault.instruction_exception_vector.some < 2
        && c.cpu.fault.last_exception_vector.some < 2
        && c.cpu.fault.mmu_fc_override.some < 2
        && c.cpu.fault_resume.some < 2
}
