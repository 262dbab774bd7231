// The calls by number: a call given as numbers, on a record and a bus by value and lent slices, and its answer as numbers. The numbers are
// those of the case format. It uses `calls`, `answers` and `numbers`; `fast_laws`, `fast_calls`, `sessions`, `attempts`
// and `replay` use it.
#![tactic(auto)]

ghost use Rattle.std.specs.Prelude.{◌≡◌};
ghost use Rattle.memory.specs.World.{world};
ghost use Rattle.boundary.specs.Calls.{outcome, decode, raw_call};

use answers::{Answer, Call, Performed};
use memory::Core;
use numbers::RawCall;

// `refused` is 0, the number of the refusal, or 99 where the number names no call: the numbers that C reads, which
// `attempts` hands on, so it is no `Result`.
#[repr(C)]
#[derive(Clone, Copy)]
pub struct RawAnswer {
    pub core: Core,
    pub refused: u32,
    pub answer: u32,
    pub events: u32,
}

// The number of a call that there is none of.
const NO_CALL: u32 = 99;

impl From<Performed> for RawAnswer {
    ghost use Rattle.answers.specs.Answer.{said};
    ghost use Rattle.answers.specs.Answers.{refused_by, value_of, count_of};

    ghost from_gives = { λ x r. r ≡ record { core = x.core; refused = refused_by (said x.answer); answer = value_of (said x.answer); events = count_of (said x.answer) } };

    #[tactic(auto, unfolding(answers::specs::Answers::refused_by, answers::specs::Answers::value_of, answers::specs::Answers::count_of, numbers::specs::Numbers::bit))]
    fn from(performed: Performed) -> Self {
        let (refused, answer, events) = match performed.answer {
            Ok(Answer::Cycles(cycles, events)) => (0, cycles, events),
            Ok(Answer::Flag(flag, events)) => (0, u32::from(flag), events),
            Ok(Answer::Value(value, events)) => (0, value, events),
            Ok(Answer::Done(events)) => (0, 0, events),
            Err(refusal) => (refusal.number(), 0, 0),
        };
        RawAnswer {
            core: performed.core,
            refused,
            answer,
            events,
        }
    }
}

// A call by its number, and its arguments: `calls_of` is the table. A flag is any number but 0. No `TryFrom`, since both types are of
// other crates.
#[tactic(auto, unfolding(crate::specs::Calls::decode, numbers::specs::Numbers::flag))]
fn decode(call: RawCall) -> Option<Call>
    ensures { result ≡ decode call }
{
    Some(match call.number {
        1 => Call::TakeException(call.a),
        2 => Call::Trap((call.a % 0x100) as u8),
        3 => Call::TakeGroup2Exception(call.a),
        4 => Call::ExceptionChk,
        5 => Call::ExceptionZeroDivide,
        6 => Call::ExceptionPrivilege,
        7 => Call::ExceptionTrace,
        8 => Call::ExceptionAddressError(call.a, call.b != 0, call.c != 0),
        9 => Call::ExceptionBusError(
            call.a,
            call.b != 0,
            call.c != 0,
            call.d,
            types::cause_of((call.e % 0x100) as u8),
        ),
        10 => Call::TakeFpUnimp060(call.a),
        11 => Call::TakeFpDisabled060,
        12 => Call::TakeAlineException,
        13 => Call::TakeFlineException,
        14 => Call::TakeTrapException((call.a % 0x100) as u8),
        15 => Call::TakeBkptException,
        16 => Call::TakeIllegalException,
        17 => Call::TriggerAddressError(call.a, call.b != 0, call.c != 0),
        18 => Call::TriggerBusError(call.a, call.b != 0, call.c != 0, call.d),
        19 => Call::CheckTrace,
        20 => Call::SetIrq((call.a % 0x100) as u8),
        21 => Call::CheckInterrupts,
        22 => Call::CheckAndServiceInterrupts,
        23 => Call::Read16(call.a),
        24 => Call::Read32(call.a),
        25 => Call::Write16(call.a, (call.b % 0x10000) as u16),
        26 => Call::Write32(call.a, call.b),
        27 => Call::Push16((call.a % 0x10000) as u16),
        28 => Call::Push32(call.a),
        29 => Call::PrefetchFirst,
        30 => Call::PrefetchSecond,
        _ => return None,
    })
}

// A call by number.
#[tactic(auto, unfolding(crate::specs::Calls::raw_call, crate::specs::Calls::raw_of, crate::specs::Calls::of_performed))]
pub fn raw_call(m: Core, store: &mut [u8], log: &mut [u32], call: RawCall) -> RawAnswer
    ensures { outcome (world result.core store.new log.new) result.refused result.answer result.events ≡ raw_call (world m store.old log.old) call }
{
    match decode(call) {
        Some(call) => RawAnswer::from(calls::perform(m, store, log, call)),
        None => RawAnswer {
            core: m,
            refused: NO_CALL,
            answer: 0,
            events: 0,
        },
    }
}
