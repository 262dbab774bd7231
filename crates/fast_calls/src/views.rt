// What the fast way reads of the record and its bus.
ghost use Rattle.std.specs.Prelude.{◌≡◌};
ghost use Rattle.fast_plans.specs.Views.{view_of};
ghost use Rattle.fast_laws.specs.Patched.{Words};

use fast_plans::View;
use memory::Core;

#[tactic(auto, unfolding(fast_plans::specs::Views::view_of))]
pub(crate) fn view(m: Core) -> View
    ensures { (result ≡ view_of m) × Words m }
{
    View {
        kind: m.cpu.flow.cpu_type,
        flags: m.cpu.flags,
        a7: m.cpu.regs.dar[15],
        user: m.cpu.regs.sp[0],
        interrupt: m.cpu.regs.sp[4],
        pc: m.cpu.flow.pc,
        ppc: m.cpu.flow.ppc,
        vbr: m.cpu.flow.vbr,
        run_mode: m.cpu.flow.run_mode,
        stopped: m.cpu.flow.stopped,
        exception: m.cpu.flow.exception_processing,
        change_of_flow: m.cpu.flow.change_of_flow,
        room: pending::interrupts::has_cycles(m.cpu),
        clocks: m.cpu.queue.pending_sync_clocks,
        precise: m.cpu.queue.precise_bus,
        overridden: m.cpu.fault.mmu_fc_override.some,
        base: m.bus.base,
        windows: m.bus.windows,
        responses: m.bus.responses,
        events: m.bus.events,
    }
}
