// The calls over a lent record by value: the plain way of each, and the fast way that is tried first. What is tried tests everything and then
// writes, or touches nothing; its patch is laid into the lent record by the exported call. It uses `fast`, `fast_frames`, `fast_return`, `boundary`,
// `unwind`, `records` and `status`; `lent` exports the calls.
#![tactic(auto)]

use cpu::Cpu;
use fast_plans::Patch;
use fast_return::ReturnPatch;
use memory::Core;
use numbers::RawCall;
use records::{LentCore, LentCpu, LentResume};
use unwind::returns::{Row, Walked};

mod patches; // a patch laid into the groups of a lent record
mod views; // what the fast way reads of a lent record

ghost use Rattle.std.specs.Prelude.{◌≡◌, IfSome};
ghost use Rattle.numbers.specs.Numbers.{exception_call, interrupt_call};
ghost use Rattle.unwind.specs.Returns.{walk};
ghost use Rattle.attempts.specs.Lent.{left, record_after, lent_call, served_return, lent_return, lent_walk, lent_sr, set_sr, served_status, lent_set_sr};
ghost use Rattle.attempts.specs.Attempts.{attempted_by, calmed_by, patched_by, Tried};
ghost use Rattle.records.specs.Records.{raised_resume, lowered_resume};
ghost use Rattle.fast_laws.specs.Patched.{Fetched};
ghost use Rattle.attempts.specs.Restored.{restored_by, TriedReturn};

// What a call says, as C reads it. `refused` is 0, the number of the refusal, or 99 where the number names no call.
#[repr(C)]
#[derive(Clone, Copy)]
pub struct Said {
    pub refused: u32,
    pub answer: u32,
    pub events: u32,
}

// What a return says, as C reads it: 0 and its row, or the number of the refusal and a row of zeros.
#[repr(C)]
#[derive(Clone, Copy)]
pub struct SaidReturn {
    pub refused: u32,
    pub row: Row,
}

// What the functions by value hand back: the lent record after a call, and what the call says. A struct for each of call, return and status, as
// for what C reads of each.
#[derive(Clone, Copy)]
pub struct Served {
    pub said: Said,
    pub core: LentCore,
}

// What an attempt hands back: the patch of the record, which tells whether it did the call and how, and then what the call says.
#[derive(Clone, Copy)]
pub struct Attempted {
    pub said: Said,
    pub patch: Patch,
}

#[derive(Clone, Copy)]
pub struct ServedReturn {
    pub said: SaidReturn,
    pub core: LentCore,
}

// The same of a return that an attempt did, in one way.
#[derive(Clone, Copy)]
pub struct AttemptedReturn {
    pub said: SaidReturn,
    pub patch: ReturnPatch,
}

#[derive(Clone, Copy)]
pub struct ServedStatus {
    pub status: u32,
    pub cpu: LentCpu,
}

// A call with no number and no argument, of which others are made.
const NO_CALL: RawCall = RawCall {
    number: 0,
    a: 0,
    b: 0,
    c: 0,
    d: 0,
    e: 0,
};

// The lent record after a call that was refused by n, the number that C reads, every byte as it came, or that left the record m, its flags as 0 and 1.
#[tactic(auto, unfolding(crate::specs::Lent::record_after))]
fn record_after(c: LentCore, n: u32, m: Core) -> LentCore
    ensures { result ≡ record_after c n m }
{
    if n == 0 { LentCore::from(m) } else { c }
}

// The call on a lent record by value.
#[tactic(auto, unfolding(crate::specs::Lent::lent_call, crate::specs::Lent::left_by))]
pub fn serve(c: LentCore, call: RawCall, store: &mut [u8], log: &mut [u32]) -> Served
    ensures { left result.core store.new log.new result.said ≡ lent_call c store.old log.old call }
{
    let x = boundary::raw_call(c.into(), store, log, call);
    let d = record_after(c, x.refused, x.core);
    Served {
        said: Said {
            refused: x.refused,
            answer: x.answer,
            events: x.events,
        },
        core: d,
    }
}

// `take_exception` alone.
pub fn serve_exception(c: LentCore, vector: u32, store: &mut [u8], log: &mut [u32]) -> Served
    ensures { left result.core store.new log.new result.said ≡ lent_call c store.old log.old (exception_call vector) }
{
    let call = RawCall {
        number: 1,
        a: vector,
        ..NO_CALL
    };
    serve(c, call, store, log)
}

// The interrupt call alone.
pub fn serve_interrupt(c: LentCore, store: &mut [u8], log: &mut [u32]) -> Served
    ensures { left result.core store.new log.new result.said ≡ lent_call c store.old log.old interrupt_call }
{
    let call = RawCall {
        number: 22,
        ..NO_CALL
    };
    serve(c, call, store, log)
}

#[tactic(auto, unfolding(crate::specs::Attempts::attempted_by))]
fn hand_over(q: Patch) -> Attempted
    ensures { (result ≡ attempted_by q) × Fetched q }
{
    Attempted {
        said: Said {
            refused: 0,
            answer: q.answer,
            events: q.events,
        },
        patch: q,
    }
}

// The call by a fast way: it does all but the patch, or it leaves store and log alone and says so.
pub fn attempt(c: LentCore, call: RawCall, store: &mut [u8], log: &mut [u32]) -> Attempted
    ensures { Tried c call store.old log.old result store.new log.new }
{
    if !views::is_tidy(c) {
        return hand_over(fast_plans::none());
    }
    let x = views::view(c);
    if fast_frames::rows::is_framed(call.number) {
        let wdata = c.cpu.fault.pending_fault_wdata;
        let code = c.cpu.fault.mmu_fc_override.value;
        return hand_over(fast_frames::go(x, wdata, code, call, store, log));
    }
    hand_over(fast::go(x, call, store, log))
}

// `take_exception` alone by a fast way, the same. Each attempt is short, and one that took the way as a closure would be no plainer.
pub fn attempt_exception(c: LentCore, vector: u32, store: &mut [u8], log: &mut [u32]) -> Attempted
    ensures { Tried c (exception_call vector) store.old log.old result store.new log.new }
{
    if !views::is_tidy(c) {
        return hand_over(fast_plans::none());
    }
    hand_over(fast::own::take_exception(views::view(c), vector, store, log))
}

// The interrupt call alone, the same.
pub fn attempt_interrupt(c: LentCore, store: &mut [u8], log: &mut [u32]) -> Attempted
    ensures { Tried c interrupt_call store.old log.old result store.new log.new }
{
    if !views::is_tidy(c) {
        return hand_over(fast_plans::none());
    }
    hand_over(fast::own::check_and_service(views::view(c), store, log))
}

// The lent record after an attempt that was calm.
#[tactic(auto, unfolding(crate::specs::Attempts::calmed_by))]
pub fn calmed(mut d: LentCore, x: Attempted) -> LentCore
    ensures { result ≡ calmed_by d x }
{
    d.cpu = patches::calmed_cpu(d.cpu, x.patch);
    d.bus.events = 0;
    d
}

// The lent record after an attempt that was an entry.
#[tactic(auto, unfolding(crate::specs::Attempts::patched_by))]
pub fn patched(mut d: LentCore, x: Attempted) -> LentCore
    ensures { result ≡ patched_by d x }
{
    d.cpu = patches::patched_cpu(d.cpu, x.patch);
    d.bus.events = x.patch.events;
    d
}

// The return on a lent record by value.
#[tactic(auto, using(crate::proofs::Ways::served_way), unfolding(crate::specs::Lent::lent_return, crate::specs::Lent::returned_by, crate::specs::Lent::record_after))]
pub fn serve_return(c: LentCore, store: &[u8]) -> ServedReturn
    ensures { served_return result.core result.said ≡ lent_return c store.now }
{
    match unwind::return_from(Core::from(c), store) {
        Ok(returned) => ServedReturn {
            said: SaidReturn {
                refused: 0,
                row: returned.row,
            },
            core: LentCore::from(returned.core),
        },
        Err(refusal) => ServedReturn {
            said: SaidReturn {
                refused: refusal.number(),
                row: Row::ZEROS,
            },
            core: c,
        },
    }
}

// The return by a fast way, or no return.
#[tactic(auto, using(crate::specs::Restored::attempt_law))]
pub fn attempt_return(c: LentCore, store: &[u8]) -> Option<AttemptedReturn>
    ensures { IfSome result (TriedReturn c store.now) }
{
    let patch = fast_return::try_return(Core::from(c), store)?;
    Some(AttemptedReturn {
        said: SaidReturn {
            refused: 0,
            row: patch.row,
        },
        patch,
    })
}

// What a faulted instruction keeps, its flag as 0 or 1. It changes in place: made anew it would be copied.
#[tactic(auto, unfolding(records::specs::Records::raised_resume, records::specs::Records::lowered_resume, numbers::specs::Numbers::flag))]
fn resume_after(mut x: LentResume) -> LentResume
    ensures { result ≡ lowered_resume (raised_resume x) }
{
    x.some = (x.some != 0) as u8;
    x
}

// The lent record after a return that was attempted and goes.
#[tactic(auto, using(crate::specs::Restored::restored_law))]
pub fn restored(d: LentCore, x: AttemptedReturn) -> LentCore
    ensures { result ≡ restored_by d x }
{
    let mut r = LentCore::from(fast_return::patched(d.into(), x.patch));
    r.cpu.fault_resume = resume_after(d.cpu.fault_resume);
    r
}

// The walk on a lent record by value.
#[tactic(auto, unfolding(crate::specs::Lent::lent_walk))]
pub fn serve_walk(c: LentCore, n: u32, store: &[u8], rows: &mut [u32]) -> Walked
    ensures { walk result.refused result.count rows.new ≡ lent_walk c store.now n rows.old }
{
    fast_return::walk(c.into(), store, n, rows)
}

// The status register of a lent record by value.
#[tactic(auto, unfolding(crate::specs::Lent::lent_sr))]
pub fn serve_sr(c: LentCpu) -> u32
    ensures { result ≡ lent_sr c }
{
    status::get_sr(c.into()) as u32
}

#[tactic(auto, unfolding(crate::specs::Lent::set_sr))]
fn set_sr(c: Cpu, sr: u16) -> Cpu
    ensures { result ≡ set_sr c sr }
{
    status::banks::restore_sp(status::set_sr_noint_nosp(status::banks::backup_sp(c), sr))
}

// The status register set, on a lent record by value.
#[tactic(auto, unfolding(crate::specs::Lent::lent_set_sr))]
pub fn serve_set_sr(c: LentCpu, sr: u16) -> ServedStatus
    ensures { served_status result.cpu result.status ≡ lent_set_sr c sr }
{
    let d = set_sr(c.into(), sr);
    ServedStatus {
        status: status::get_sr(d) as u32,
        cpu: d.into(),
    }
}
