// The public calls: one function that refuses a call by number, with nothing touched, or performs it. It uses `answers` for calls and
// answers, `refusals`, `interrupts`, `exceptions`, `access` and everything below; `boundary` takes it by number.
#![tactic(auto)]

ghost use Rattle.std.specs.Prelude.{◌≡◌};
ghost use Rattle.memory.specs.World.{world};
ghost use Rattle.answers.specs.Answer.{said};
ghost use Rattle.answers.specs.Answers.{answered};
ghost use Rattle.calls.specs.Calls.{restarted, run, perform};

use answers::{Call, Performed};
use memory::Core;

// What an error entry is charged.
const ERROR_CYCLES: u32 = 50;

// The log starts at its first word.
#[tactic(auto, unfolding(crate::specs::Calls::restarted))]
fn begin(mut m: Core) -> Core
    ensures { result ≡ restarted m }
{
    m.bus.events = 0;
    m
}

// A call that is not refused.
#[tactic(auto, unfolding(crate::specs::Calls::run, answers::specs::Answers::cycles, answers::specs::Answers::flag, answers::specs::Answers::plain, answers::specs::Answers::of_entry, answers::specs::Answers::of_read, answers::specs::Answers::of_service, answers::specs::Answers::of_trace))]
fn run(m: Core, store: &mut [u8], log: &mut [u32], call: Call) -> Performed
    ensures { answered (world result.core store.new log.new) (said result.answer) ≡ run (world m store.old log.old) call }
{
    match call {
        Call::TakeException(v) => Performed::from(exceptions::take_exception(m, store, log, v)),
        Call::Trap(n) => Performed::from(exceptions::trap(m, store, log, n)),
        Call::TakeGroup2Exception(v) => Performed::from(exceptions::take_group2_exception(
            m, store, log, v,
        )),
        Call::ExceptionChk => Performed::from(exceptions::exception_chk(m, store, log)),
        Call::ExceptionZeroDivide => Performed::from(exceptions::exception_zero_divide(
            m, store, log,
        )),
        Call::ExceptionPrivilege => Performed::from(exceptions::exception_privilege(m, store, log)),
        Call::ExceptionTrace => Performed::from(exceptions::exception_trace(m, store, log)),
        Call::ExceptionAddressError(a, w, i) => Performed::cycles(
            access::exception_address_error(m, store, log, a, w, i),
            ERROR_CYCLES,
        ),
        Call::ExceptionBusError(a, w, i, z, cause) => Performed::cycles(
            access::exception_bus_error(m, store, log, a, w, i, z, types::cause_number(cause)),
            ERROR_CYCLES,
        ),
        Call::TakeFpUnimp060(ea) => Performed::from(exceptions::take_fp_unimp_060(
            m, store, log, ea,
        )),
        Call::TakeFpDisabled060 => Performed::from(exceptions::take_fp_disabled_060(m, store, log)),
        Call::TakeAlineException => Performed::from(exceptions::take_aline_exception(
            m, store, log,
        )),
        Call::TakeFlineException => Performed::from(exceptions::take_fline_exception(
            m, store, log,
        )),
        Call::TakeTrapException(n) => Performed::from(exceptions::take_trap_exception(
            m, store, log, n,
        )),
        Call::TakeBkptException => Performed::from(exceptions::take_bkpt_exception(m, store, log)),
        Call::TakeIllegalException => Performed::from(exceptions::take_illegal_exception(
            m, store, log,
        )),
        Call::TriggerAddressError(a, w, i) => Performed::done(access::trigger_address_error(
            m, store, log, a, w, i,
        )),
        Call::TriggerBusError(a, w, i, z) => Performed::done(access::trigger_bus_error(
            m, store, log, a, w, i, z,
        )),
        Call::CheckTrace => {
            let traced = pending::trace::check_trace(m.cpu);
            Performed::flag(memory::with_cpu(m, traced.cpu), traced.trace)
        }
        Call::SetIrq(n) => Performed::done(memory::with_cpu(
            m,
            pending::interrupts::set_irq(m.cpu, n),
        )),
        Call::CheckInterrupts => Performed::flag(m, pending::interrupts::check_interrupts(m.cpu)),
        Call::CheckAndServiceInterrupts => Performed::from(interrupts::check_and_service_interrupts(
            m, store, log,
        )),
        Call::Read16(a) => Performed::from(access::read_16(m, store, log, a)),
        Call::Read32(a) => Performed::from(access::read_32(m, store, log, a)),
        Call::Write16(a, v) => Performed::done(access::write_16(m, store, log, a, v)),
        Call::Write32(a, v) => Performed::done(access::write_32(m, store, log, a, v)),
        Call::Push16(v) => Performed::done(access::push_16(m, store, log, v)),
        Call::Push32(v) => Performed::done(access::push_32(m, store, log, v)),
        Call::PrefetchFirst => Performed::done(access::prefetch_first(m, store, log)),
        Call::PrefetchSecond => Performed::done(access::prefetch_second(m, store, log)),
    }
}

// Performs a call on record and bus by value and on the lent store and log; or refuses it, and nothing is touched.
#[tactic(auto, unfolding(crate::specs::Calls::perform, crate::specs::Calls::refusal, crate::specs::Calls::begun))]
pub fn perform(m: Core, store: &mut [u8], log: &mut [u32], call: Call) -> Performed
    ensures { answered (world result.core store.new log.new) (said result.answer) ≡ perform (world m store.old log.old) call }
{
    match refusals::check(m, store.len(), log.len(), answers::matters::given(call)) {
        Ok(()) => run(begin(m), store, log, call),
        Err(refusal) => Performed::refused(m, refusal),
    }
}
