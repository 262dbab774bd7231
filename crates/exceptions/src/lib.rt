// The exceptions that are no errors: `take_exception` and the wrappers around it, the group 2 exceptions, trace, and the two floating-point
// entries of the 68060. It uses `formats`, `access` and everything below; `answers` and `calls` use it.
#![tactic(auto)]

ghost use Rattle.std.specs.Prelude.{◌≡◌};
ghost use Rattle.types.specs.Vectors.{illegal_instruction, zero_divide, chk, privilege_violation, line1010, line1111};
ghost use Rattle.memory.specs.World.{world};
ghost use Rattle.exceptions.specs.Exceptions.{entry, stack_short, taken, take_exception, stack_group2, take_group2, trap, exception_trace, take_rewound, stack_unimp, take_fp_unimp060, stack_disabled, take_fp_disabled060};

use memory::Core;

// A core after an entry, and the cycles that the entry answers.
#[derive(Clone, Copy)]
pub struct Entered {
    pub core: Core,
    pub cycles: u32,
}

// The status as it was, an address and, on kinds with a format, a format word.
#[tactic(auto, unfolding(crate::specs::Exceptions::stack_short, cpu::specs::Fields::kind_of))]
pub fn stack_short(m: Core, store: &mut [u8], log: &mut [u32], pc: u32, format: u32) -> Core
    ensures { world result store.new log.new ≡ stack_short (world m store.old log.old) pc format }
{
    let sr = status::get_sr(m.cpu);
    let a = memory::with_cpu(m, status::banks::enter_supervisor(m.cpu));
    let k = m.cpu.flow.cpu_type;
    if k == types::M68000 {
        access::push_exception_frame_68000(a, store, log, pc, sr)
    } else {
        let f = formats::short_frame(u32::from(sr), pc, format);
        access::push_frame(a, store, log, f)
    }
}

// The frame of `take_exception`, the jump, and the end of exception processing.
#[tactic(auto, unfolding(crate::specs::Exceptions::taken, crate::specs::Exceptions::finished))]
fn stack_and_jump(m: Core, store: &mut [u8], log: &mut [u32], vector: u32) -> Core
    ensures { world result store.new log.new ≡ taken (world m store.old log.old) vector }
{
    let pc = steps::stacked_address(m.cpu, vector);
    let format = formats::offset_word(vector);
    let a = stack_short(m, store, log, pc, u32::from(format));
    let b = access::jump_vector(a, store, log, vector);
    memory::with_cpu(b, cpu::fields::set_exception(b.cpu, false))
}

// An exception by its vector.
#[tactic(auto, unfolding(crate::specs::Exceptions::take_exception, cpu::specs::Fields::in_exception))]
pub fn take_exception(m: Core, store: &mut [u8], log: &mut [u32], vector: u32) -> Entered
    ensures { entry (world result.core store.new log.new) result.cycles ≡ take_exception (world m store.old log.old) vector }
{
    if m.cpu.flow.exception_processing {
        return Entered {
            core: memory::with_cpu(m, cpu::fields::halt(m.cpu)),
            cycles: 0,
        };
    }
    let a = memory::with_cpu(m, steps::begin_entry(m.cpu));
    Entered {
        core: stack_and_jump(a, store, log, vector),
        cycles: types::exception_cycles(vector),
    }
}

// The frame of a group 2 exception.
#[tactic(auto, unfolding(crate::specs::Exceptions::stack_group2, cpu::specs::Fields::kind_of, cpu::specs::Fields::pc_of, cpu::specs::Fields::ppc_of))]
fn stack_group2(m: Core, store: &mut [u8], log: &mut [u32], vector: u32) -> Core
    ensures { world result store.new log.new ≡ stack_group2 (world m store.old log.old) vector }
{
    let pc = m.cpu.flow.pc;
    let k = m.cpu.flow.cpu_type;
    if types::is_pre_68020(k) {
        let format = formats::offset_word(vector);
        return stack_short(m, store, log, pc, u32::from(format));
    }
    let a = memory::with_cpu(m, status::banks::enter_supervisor(m.cpu));
    let sr = status::get_sr(m.cpu);
    let format = formats::format_word(2, vector);
    let f = formats::long_frame(u32::from(sr), pc, format, m.cpu.flow.ppc);
    access::push_frame(a, store, log, f)
}

// A group 2 exception: CHK, TRAPV, zero divide, trace.
#[tactic(auto, unfolding(crate::specs::Exceptions::take_group2))]
pub fn take_group2_exception(m: Core, store: &mut [u8], log: &mut [u32], vector: u32) -> Entered
    ensures { entry (world result.core store.new log.new) result.cycles ≡ take_group2 (world m store.old log.old) vector }
{
    let a = stack_group2(m, store, log, vector);
    Entered {
        core: access::jump_vector(a, store, log, vector),
        cycles: types::exception_cycles(vector),
    }
}

// The Rust has a name for each exception: each is one line here over the function that takes the vector.

// TRAP #n.
#[tactic(auto, unfolding(crate::specs::Exceptions::trap))]
pub fn trap(m: Core, store: &mut [u8], log: &mut [u32], n: u8) -> Entered
    ensures { entry (world result.core store.new log.new) result.cycles ≡ trap (world m store.old log.old) n }
{
    take_exception(m, store, log, types::TRAP_BASE + u32::from(n % 16))
}

// CHK.
pub fn exception_chk(m: Core, store: &mut [u8], log: &mut [u32]) -> Entered
    ensures { entry (world result.core store.new log.new) result.cycles ≡ take_group2 (world m store.old log.old) chk }
{
    take_group2_exception(m, store, log, types::CHK)
}

// Divide by zero.
pub fn exception_zero_divide(m: Core, store: &mut [u8], log: &mut [u32]) -> Entered
    ensures { entry (world result.core store.new log.new) result.cycles ≡ take_group2 (world m store.old log.old) zero_divide }
{
    take_group2_exception(m, store, log, types::ZERO_DIVIDE)
}

// Privilege violation.
pub fn exception_privilege(m: Core, store: &mut [u8], log: &mut [u32]) -> Entered
    ensures { entry (world result.core store.new log.new) result.cycles ≡ take_exception (world m store.old log.old) privilege_violation }
{
    take_exception(m, store, log, types::PRIVILEGE_VIOLATION)
}

// Trace.
#[tactic(auto, unfolding(crate::specs::Exceptions::exception_trace))]
pub fn exception_trace(m: Core, store: &mut [u8], log: &mut [u32]) -> Entered
    ensures { entry (world result.core store.new log.new) result.cycles ≡ exception_trace (world m store.old log.old) }
{
    let a = memory::with_cpu(m, steps::begin_trace(m.cpu));
    take_group2_exception(a, store, log, types::TRACE)
}

// An exception with PC back at the instruction.
#[tactic(auto, unfolding(crate::specs::Exceptions::take_rewound))]
fn take_rewound(m: Core, store: &mut [u8], log: &mut [u32], vector: u32) -> Entered
    ensures { entry (world result.core store.new log.new) result.cycles ≡ take_rewound (world m store.old log.old) vector }
{
    let a = memory::with_cpu(m, cpu::fields::rewind_pc(m.cpu));
    take_exception(a, store, log, vector)
}

// Line A.
pub fn take_aline_exception(m: Core, store: &mut [u8], log: &mut [u32]) -> Entered
    ensures { entry (world result.core store.new log.new) result.cycles ≡ take_rewound (world m store.old log.old) line1010 }
{
    take_rewound(m, store, log, types::LINE_1010)
}

// Line F.
pub fn take_fline_exception(m: Core, store: &mut [u8], log: &mut [u32]) -> Entered
    ensures { entry (world result.core store.new log.new) result.cycles ≡ take_rewound (world m store.old log.old) line1111 }
{
    take_rewound(m, store, log, types::LINE_1111)
}

// Breakpoint.
pub fn take_bkpt_exception(m: Core, store: &mut [u8], log: &mut [u32]) -> Entered
    ensures { entry (world result.core store.new log.new) result.cycles ≡ take_rewound (world m store.old log.old) illegal_instruction }
{
    take_rewound(m, store, log, types::ILLEGAL_INSTRUCTION)
}

// Illegal instruction.
pub fn take_illegal_exception(m: Core, store: &mut [u8], log: &mut [u32]) -> Entered
    ensures { entry (world result.core store.new log.new) result.cycles ≡ take_rewound (world m store.old log.old) illegal_instruction }
{
    take_rewound(m, store, log, types::ILLEGAL_INSTRUCTION)
}

// TRAP #n that nobody handled.
pub fn take_trap_exception(m: Core, store: &mut [u8], log: &mut [u32], n: u8) -> Entered
    ensures { entry (world result.core store.new log.new) result.cycles ≡ trap (world m store.old log.old) n }
{
    trap(m, store, log, n)
}

// The frame of an unimplemented floating-point instruction.
#[tactic(auto, unfolding(crate::specs::Exceptions::stack_unimp, cpu::specs::Fields::pc_of))]
fn stack_unimp(m: Core, store: &mut [u8], log: &mut [u32], ea: u32) -> Core
    ensures { world result store.new log.new ≡ stack_unimp (world m store.old log.old) ea }
{
    let a = memory::with_cpu(m, status::banks::enter_supervisor(m.cpu));
    let sr = status::get_sr(m.cpu);
    let pc = m.cpu.flow.pc;
    let format = formats::format_word(2, types::LINE_1111);
    let f = formats::long_frame(u32::from(sr), pc, format, ea);
    access::push_frame(a, store, log, f)
}

// 68060: a floating-point instruction that is not implemented.
#[tactic(auto, unfolding(crate::specs::Exceptions::take_fp_unimp060))]
pub fn take_fp_unimp_060(m: Core, store: &mut [u8], log: &mut [u32], ea: u32) -> Entered
    ensures { entry (world result.core store.new log.new) result.cycles ≡ take_fp_unimp060 (world m store.old log.old) ea }
{
    let b = memory::with_cpu(m, cpu::fields::note_fpiar(m.cpu));
    let a = stack_unimp(b, store, log, ea);
    Entered {
        core: access::jump_vector(a, store, log, types::LINE_1111),
        cycles: types::exception_cycles(types::LINE_1111),
    }
}

// The frame of a disabled floating-point unit.
#[tactic(auto, unfolding(crate::specs::Exceptions::stack_disabled, cpu::specs::Fields::ppc_of))]
fn stack_disabled(m: Core, store: &mut [u8], log: &mut [u32]) -> Core
    ensures { world result store.new log.new ≡ stack_disabled (world m store.old log.old) }
{
    let a = memory::with_cpu(m, status::banks::enter_supervisor(m.cpu));
    let sr = status::get_sr(m.cpu);
    let ppc = m.cpu.flow.ppc;
    let format = formats::format_word(4, types::LINE_1111);
    let f = formats::disabled_frame(u32::from(sr), ppc, format, 0, ppc);
    access::push_frame(a, store, log, f)
}

// 68060: the floating-point unit is disabled.
#[tactic(auto, unfolding(crate::specs::Exceptions::take_fp_disabled060))]
pub fn take_fp_disabled_060(m: Core, store: &mut [u8], log: &mut [u32]) -> Entered
    ensures { entry (world result.core store.new log.new) result.cycles ≡ take_fp_disabled060 (world m store.old log.old) }
{
    let a = stack_disabled(m, store, log);
    Entered {
        core: access::jump_vector(a, store, log, types::LINE_1111),
        cycles: types::exception_cycles(types::LINE_1111),
    }
}
