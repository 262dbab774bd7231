// What a call is, what it is given and what it answers: one enum of calls, what each is given, which decides the numbers that it checks, and
// the answers with record and bus after a call. It uses `refusals`, `interrupts`, `exceptions` and everything below; `calls` uses it, and
// whoever makes a call or reads an answer.
#![tactic(auto)]

use exceptions::Entered;
use interrupts::Serviced;
use memory::{Core, Reply};
use refusals::Refusal;
use types::FaultCause;

pub mod matters; // what each call is given

ghost use Rattle.std.specs.Prelude.{◌≡◌, Ok, Err, unwrap_or};
ghost use Rattle.answers.specs.Answers.{events_of};

// The calls, in the order of the case format and by the names of the Rust.
#[derive(Clone, Copy)]
pub enum Call {
    TakeException(u32),
    Trap(u8),
    TakeGroup2Exception(u32),
    ExceptionChk,
    ExceptionZeroDivide,
    ExceptionPrivilege,
    ExceptionTrace,
    ExceptionAddressError(u32, bool, bool),
    ExceptionBusError(u32, bool, bool, u32, Option<FaultCause>),
    TakeFpUnimp060(u32),
    TakeFpDisabled060,
    TakeAlineException,
    TakeFlineException,
    TakeTrapException(u8),
    TakeBkptException,
    TakeIllegalException,
    TriggerAddressError(u32, bool, bool),
    TriggerBusError(u32, bool, bool, u32),
    CheckTrace,
    SetIrq(u8),
    CheckInterrupts,
    CheckAndServiceInterrupts,
    Read16(u32),
    Read32(u32),
    Write16(u32, u16),
    Write32(u32, u32),
    Push16(u16),
    Push32(u32),
    PrefetchFirst,
    PrefetchSecond,
}

// What a call answers, with the number of its events.
#[derive(Clone, Copy, PartialEq, Eq, Debug)]
pub enum Answer {
    Cycles(u32, u32),
    Flag(bool, u32),
    Value(u32, u32),
    Done(u32),
}

// Record and bus after a call, and its answer; or as they were, and why it is refused.
#[derive(Clone, Copy)]
pub struct Performed {
    pub core: Core,
    pub answer: Result<Answer, Refusal>,
}

// A maker for each case of the answer: the cases take one number, two, or a flag and a number.
impl Performed {
    pub fn cycles(core: Core, cycles: u32) -> Self
        ensures { result ≡ record { core = core; answer = Ok (Answer.Cycles cycles (events_of core)) } }
    {
        Performed {
            core,
            answer: Ok(Answer::Cycles(cycles, core.bus.events)),
        }
    }

    pub fn flag(core: Core, flag: bool) -> Self
        ensures { result ≡ record { core = core; answer = Ok (Answer.Flag flag (events_of core)) } }
    {
        Performed {
            core,
            answer: Ok(Answer::Flag(flag, core.bus.events)),
        }
    }

    pub fn done(core: Core) -> Self
        ensures { result ≡ record { core = core; answer = Ok (Answer.Done (events_of core)) } }
    {
        Performed {
            core,
            answer: Ok(Answer::Done(core.bus.events)),
        }
    }

    pub fn refused(core: Core, refusal: Refusal) -> Self
        ensures { result ≡ record { core = core; answer = Err refusal } }
    {
        Performed {
            core,
            answer: Err(refusal),
        }
    }
}

impl From<Entered> for Performed {
    ghost use Rattle.answers.specs.declared.Answer.{Answer};

    ghost from_gives = { λ x r. r ≡ record { core = x.core; answer = Ok (Answer.Cycles x.cycles (events_of x.core)) } };

    fn from(entered: Entered) -> Self {
        Performed::cycles(entered.core, entered.cycles)
    }
}

impl From<Serviced> for Performed {
    ghost use Rattle.answers.specs.declared.Answer.{Answer};

    ghost from_gives = { λ x r. r ≡ record { core = x.core; answer = Ok (Answer.Flag x.taken (events_of x.core)) } };

    fn from(serviced: Serviced) -> Self {
        Performed::flag(serviced.core, serviced.taken)
    }
}

impl From<Reply> for Performed {
    ghost use Rattle.answers.specs.declared.Answer.{Answer};

    ghost from_gives = { λ x r. r ≡ record { core = x.core; answer = Ok (Answer.Value (unwrap_or x.value 0) (events_of x.core)) } };

    fn from(reply: Reply) -> Self {
        Performed {
            core: reply.core,
            answer: Ok(Answer::Value(reply.value.unwrap_or(0), reply.core.bus.events)),
        }
    }
}
