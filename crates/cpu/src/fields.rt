// Registers, flow and faults, one field at a time. A field is no parameter, so those that set one share no body.
ghost use Rattle.std.specs.Prelude.{◌≡◌, Some, None};
ghost use Rattle.types.specs.Kinds.{pick};
ghost use Rattle.cpu.specs.Fields.{kind_of, ppc_of, ir_of, a7_of, address_of, wdata_of, has_fc_override, fc_override_of, set_a7, set_pc, set_ppc, rewind_pc, note_fpiar, halted, set_exception, clear_stopped, leave_stop, restore_registers, set_wdata, clear_cause, clear_fc_override, start_vector, lower_a7, minus32};

use crate::{Cpu, OptionalCode, OptionalVector};

// the kind of processor
#[tactic(auto, unfolding(crate::specs::Fields::kind_of))]
pub fn kind(c: Cpu) -> u8
    ensures { result ≡ kind_of c }
{
    c.flow.cpu_type
}

// the address of the instruction that runs
#[tactic(auto, unfolding(crate::specs::Fields::ppc_of))]
pub fn ppc(c: Cpu) -> u32
    ensures { result ≡ ppc_of c }
{
    c.flow.ppc
}

// the instruction register
#[tactic(auto, unfolding(crate::specs::Fields::ir_of))]
pub fn ir(c: Cpu) -> u32
    ensures { result ≡ ir_of c }
{
    c.flow.ir
}

// A7, the stack pointer in use
#[tactic(auto, unfolding(crate::specs::Fields::a7_of))]
pub fn a7(c: Cpu) -> u32
    ensures { result ≡ a7_of c }
{
    c.regs.dar[15]
}

// `address`: under the address mask of the kind, 24 bits on kinds 0, 1, 2
#[tactic(auto, unfolding(crate::specs::Fields::address_of, types::specs::Kinds::mask_address))]
pub fn address(c: Cpu, a: u32) -> u32
    ensures { result ≡ address_of c a }
{
    if c.flow.cpu_type < types::M68EC020 {
        a % 0x1000000
    } else {
        a
    }
}

// the data of the write last tried
#[tactic(auto, unfolding(crate::specs::Fields::wdata_of))]
pub fn pending_fault_wdata(c: Cpu) -> u32
    ensures { result ≡ wdata_of c }
{
    c.fault.pending_fault_wdata
}

// the function code that stands in for that of the state, where one does
#[tactic(auto, unfolding(crate::specs::Fields::has_fc_override, crate::specs::Fields::fc_override_of))]
pub fn fc_override(c: Cpu) -> Option<u8>
    ensures { result ≡ pick (has_fc_override c) (Some (fc_override_of c)) None }
{
    let code = c.fault.mmu_fc_override;
    if code.some { Some(code.value) } else { None }
}

// A7 is v
#[tactic(auto, unfolding(crate::specs::Fields::set_a7))]
pub fn set_a7(mut c: Cpu, v: u32) -> Cpu
    ensures { result ≡ set_a7 c v }
{
    c.regs.dar[15] = v;
    c
}

// PC is v
#[tactic(auto, unfolding(crate::specs::Fields::set_pc))]
pub fn set_pc(mut c: Cpu, v: u32) -> Cpu
    ensures { result ≡ set_pc c v }
{
    c.flow.pc = v;
    c
}

// PPC is v
#[tactic(auto, unfolding(crate::specs::Fields::set_ppc))]
pub fn set_ppc(mut c: Cpu, v: u32) -> Cpu
    ensures { result ≡ set_ppc c v }
{
    c.flow.ppc = v;
    c
}

// PC is back at the instruction that runs
#[tactic(auto, unfolding(crate::specs::Fields::rewind_pc))]
pub fn rewind_pc(mut c: Cpu) -> Cpu
    ensures { result ≡ rewind_pc c }
{
    c.flow.pc = c.flow.ppc;
    c
}

// FPIAR is the instruction that runs
#[tactic(auto, unfolding(crate::specs::Fields::note_fpiar))]
pub fn note_fpiar(mut c: Cpu) -> Cpu
    ensures { result ≡ note_fpiar c }
{
    c.flow.fpiar = c.flow.ppc;
    c
}

// a second fault halts: `stopped` and `run_mode` are 1
#[tactic(auto, unfolding(crate::specs::Fields::halted))]
pub fn halt(mut c: Cpu) -> Cpu
    ensures { result ≡ halted c }
{
    c.flow.run_mode = 1;
    c.flow.stopped = 1;
    c
}

// an entry that halts on a second fault begins or ends
#[tactic(auto, unfolding(crate::specs::Fields::set_exception))]
pub fn set_exception(mut c: Cpu, b: bool) -> Cpu
    ensures { result ≡ set_exception c b }
{
    c.flow.exception_processing = b;
    c
}

// an interrupt ends the stopped state
#[tactic(auto, unfolding(crate::specs::Fields::clear_stopped))]
pub fn clear_stopped(mut c: Cpu) -> Cpu
    ensures { result ≡ clear_stopped c }
{
    c.flow.stopped = 0;
    c
}

// a trace ends a STOP: the lowest bit of `stopped` is cleared
#[tactic(auto, unfolding(crate::specs::Fields::leave_stop))]
pub fn leave_stop(mut c: Cpu) -> Cpu
    ensures { result ≡ leave_stop c }
{
    c.flow.stopped = c.flow.stopped - c.flow.stopped % 2;
    c
}

// the registers are those saved before the instruction; the saved stack pointers stay
#[tactic(auto, unfolding(crate::specs::Fields::restore_registers))]
pub fn restore_registers(mut c: Cpu) -> Cpu
    ensures { result ≡ restore_registers c }
{
    let saved = c.regs.dar_save;
    c.regs.dar = saved;
    c
}

// the data of the write that is tried
#[tactic(auto, unfolding(crate::specs::Fields::set_wdata))]
pub fn set_wdata(mut c: Cpu, v: u32) -> Cpu
    ensures { result ≡ set_wdata c v }
{
    c.fault.pending_fault_wdata = v;
    c
}

// the cause is taken
#[tactic(auto, unfolding(crate::specs::Fields::clear_cause))]
pub fn clear_cause(mut c: Cpu) -> Cpu
    ensures { result ≡ clear_cause c }
{
    c.fault.pending_fault_cause = 0;
    c
}

// the function code that stands in is consumed
#[tactic(auto, unfolding(crate::specs::Fields::clear_fc_override))]
pub fn clear_fc_override(mut c: Cpu) -> Cpu
    ensures { result ≡ clear_fc_override c }
{
    c.fault.mmu_fc_override = OptionalCode {
        some: false,
        value: 0,
    };
    c
}

// a vectored dispatch ends loop mode and leaves its vector in both vector fields
#[tactic(auto, unfolding(crate::specs::Fields::start_vector))]
pub fn start_vector(mut c: Cpu, v: u32) -> Cpu
    ensures { result ≡ start_vector c v }
{
    let taken = OptionalVector {
        some: true,
        value: v,
    };
    c.flow.loop_mode = false;
    c.fault.instruction_exception_vector = taken;
    c.fault.last_exception_vector = taken;
    c
}

// A7 lowered by n, past zero too.
#[tactic(auto, unfolding(crate::specs::Fields::lower_a7))]
pub fn lower_a7(c: Cpu, n: u32) -> Cpu
    ensures { result ≡ lower_a7 c n }
{
    set_a7(c, minus(a7(c), n))
}

// a - n modulo 2^32.
#[tactic(auto, unfolding(crate::specs::Fields::minus32))]
pub fn minus(a: u32, n: u32) -> u32
    ensures { result ≡ minus32 a n }
{
    a.wrapping_sub(n)
}
