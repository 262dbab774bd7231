// The C boundary: the calls over a record that a host lends and that is updated in place, exported for programs in other languages. A call over
// a lent record tries the fast way first, on a copy of which the compiler keeps what is read, and lays the patch into the record; else it copies the
// record whole, calls the plain way by value and stores the record that comes back. It uses `attempts`, `records` and `cpu`; programs in
// other languages use what it exports.
#![tactic(auto)]

ghost use Rattle.std.specs.Prelude.{◌≡◌};
ghost use Rattle.numbers.specs.Numbers.{exception_call, interrupt_call};
ghost use Rattle.unwind.specs.Returns.{walk};
ghost use Rattle.attempts.specs.Lent.{left, lent_call, served_return, lent_return, lent_walk, lent_fresh, lent_sr, served_status, lent_set_sr};

use attempts::{Said, SaidReturn};
use fast_plans::Way;
use numbers::RawCall;
use records::{LentCore, LentCpu};
use unwind::returns::Walked;

// A call by number on the lent record, store and log. This and the next two lay the patch each by code of its own: one function that did it for all three
// was tried, and each call took 100 to 170 instructions more, since the patch was then built in memory.
#[unsafe(no_mangle)]
pub extern "C" fn m68k_call(
    core: &mut LentCore,
    call: RawCall,
    store: &mut [u8],
    log: &mut [u32],
) -> Said
    ensures { left core.new store.new log.new result ≡ lent_call core.old store.old log.old call }
{
    let x = attempts::attempt(*core, call, store, log);
    match x.patch.way {
        Way::Idle => x.said,
        Way::Calm => {
            *core = attempts::calmed(*core, x);
            x.said
        }
        Way::Entry => {
            *core = attempts::patched(*core, x);
            x.said
        }
        Way::Plain => {
            let done = attempts::serve(*core, call, store, log);
            *core = done.core;
            done.said
        }
    }
}

// `take_exception` alone: what call number 1 is, for a caller that makes no other.
#[unsafe(no_mangle)]
pub extern "C" fn m68k_take_exception(
    core: &mut LentCore,
    vector: u32,
    store: &mut [u8],
    log: &mut [u32],
) -> Said
    ensures { left core.new store.new log.new result ≡ lent_call core.old store.old log.old (exception_call vector) }
{
    let x = attempts::attempt_exception(*core, vector, store, log);
    match x.patch.way {
        Way::Idle => x.said,
        Way::Calm => {
            *core = attempts::calmed(*core, x);
            x.said
        }
        Way::Entry => {
            *core = attempts::patched(*core, x);
            x.said
        }
        Way::Plain => {
            let done = attempts::serve_exception(*core, vector, store, log);
            *core = done.core;
            done.said
        }
    }
}

// The interrupt call alone, call number 22: what an emulator asks after every instruction.
#[unsafe(no_mangle)]
pub extern "C" fn m68k_check_and_service_interrupts(
    core: &mut LentCore,
    store: &mut [u8],
    log: &mut [u32],
) -> Said
    ensures { left core.new store.new log.new result ≡ lent_call core.old store.old log.old interrupt_call }
{
    let x = attempts::attempt_interrupt(*core, store, log);
    match x.patch.way {
        Way::Idle => x.said,
        Way::Calm => {
            *core = attempts::calmed(*core, x);
            x.said
        }
        Way::Entry => {
            *core = attempts::patched(*core, x);
            x.said
        }
        Way::Plain => {
            let done = attempts::serve_interrupt(*core, store, log);
            *core = done.core;
            done.said
        }
    }
}

// The return on the lent record, off the lent store.
#[unsafe(no_mangle)]
pub extern "C" fn m68k_return(core: &mut LentCore, store: &[u8]) -> SaidReturn
    ensures { served_return core.new result ≡ lent_return core.old store.now }
{
    match attempts::attempt_return(*core, store) {
        Some(x) => {
            *core = attempts::restored(*core, x);
            x.said
        }
        None => {
            let done = attempts::serve_return(*core, store);
            *core = done.core;
            done.said
        }
    }
}

// The walk of n into the lent rows. The record is only read.
#[unsafe(no_mangle)]
pub extern "C" fn m68k_walk(core: &LentCore, n: u32, store: &[u8], rows: &mut [u32]) -> Walked
    ensures { walk result.refused result.count rows.new ≡ lent_walk core.now store.now n rows.old }
{
    attempts::serve_walk(*core, n, store, rows)
}

// The record of a processor of that kind after `new` and `set_cpu_type`.
#[tactic(auto, unfolding(attempts::specs::Lent::lent_fresh))]
#[unsafe(no_mangle)]
pub extern "C" fn m68k_fresh(kind: u8) -> LentCpu
    ensures { result ≡ lent_fresh kind }
{
    cpu::fresh::fresh(kind).into()
}

// The status register.
#[unsafe(no_mangle)]
pub extern "C" fn m68k_get_sr(cpu: &LentCpu) -> u32
    ensures { result ≡ lent_sr cpu.now }
{
    attempts::serve_sr(*cpu)
}

// The status register set as the Rust's `set_sr` does: under the kind's mask, M only with S, and the stacks swapped. It answers the status
// as it reads then.
#[unsafe(no_mangle)]
pub extern "C" fn m68k_set_sr(cpu: &mut LentCpu, sr: u16) -> u32
    ensures { served_status cpu.new result ≡ lent_set_sr cpu.old sr }
{
    let done = attempts::serve_set_sr(*cpu, sr);
    *cpu = done.cpu;
    done.status
}
