// The refusals, and the tests of 1 to 9: the number of each, what it tests, and the lowest that applies to a call, given what the call is
// lent. It uses `memory`, `pending`, `cpu` and `types`; `answers`, `calls` and `unwind` use it; `answers` says what each call is given, and
// `unwind` finds 10 to 13.
#![tactic(auto)]

ghost use Rattle.std.specs.Prelude.{◌≡◌, ◌<◌, ◌≤◌, eqb};
ghost use Rattle.types.specs.Kinds.{either};
ghost use Rattle.refusals.specs.Matters.{matter, number_of, refusal_number};
ghost use Rattle.refusals.specs.Refusals.{bad_flags, odd_base, bad_cycles, bad_code, bad_store, past_top, any_past, bad_windows, short_log, bad_vector, bad_kind, refusal_of};

use cpu::Cpu;
use memory::{Bus, Core};

// Why a call, a return or a walk is refused, by its number.
#[derive(Clone, Copy, PartialEq, Eq, Debug)]
pub enum Refusal {
    Flags = 1,
    OddBase = 2,
    Cycles = 3,
    Code = 4,
    Store = 5,
    Windows = 6,
    Log = 7,
    Vector = 8,
    Kind = 9,
    Rows = 10,
    User = 11,
    Frame = 12,
    Format = 13,
}

impl Refusal {
    pub fn number(self) -> u32
        ensures { result ≡ number_of self }
    {
        self as u32
    }
}

// What a call is given besides the record. All but the first two are lent a store and a log.
#[derive(Clone, Copy, PartialEq, Eq, Debug)]
pub enum Given {
    Record,
    Store,
    StoreAndLog,
    Vector(u32),
    Interrupt,
    FloatingPoint,
}

impl Given {
    fn has_store(self) -> bool
        ensures { result ≡ (matter self).store }
    {
        !matches!(self, Given::Record)
    }

    fn has_log(self) -> bool
        ensures { result ≡ (matter self).log }
    {
        !matches!(self, Given::Record | Given::Store)
    }

    // 0, which every test accepts, where there is none.
    fn vector(self) -> u32
        ensures { result ≡ (matter self).vector }
    {
        match self {
            Given::Vector(vector) => vector,
            _ => 0,
        }
    }

    fn is_interrupt(self) -> bool
        ensures { result ≡ (matter self).interrupt }
    {
        matches!(self, Given::Interrupt)
    }

    fn is_floating(self) -> bool
        ensures { result ≡ (matter self).floating }
    {
        matches!(self, Given::FloatingPoint)
    }
}

// Whether a flag is 0 or its one other value.
fn is_flag(flag: u32, set: u32) -> bool
    ensures { result ≡ either (eqb flag 0) (eqb flag set) }
{
    flag == 0 || flag == set
}

// Number 1: S or M is neither clear nor its own bit.
#[tactic(auto, unfolding(crate::specs::Refusals::bad_flags))]
pub fn bad_flags(c: Cpu) -> bool
    ensures { result ≡ bad_flags c }
{
    !(is_flag(c.flags.s_flag, 4) && is_flag(c.flags.m_flag, 2))
}

// Number 2: an odd vector base on a kind that checks alignment, where the vector read would raise an address error without end.
#[tactic(auto, unfolding(crate::specs::Refusals::odd_base, cpu::specs::Fields::checks_alignment, cpu::specs::Fields::vbr_of))]
pub fn odd_base(c: Cpu) -> bool
    ensures { result ≡ odd_base c }
{
    types::is_pre_68020(c.flow.cpu_type) && c.flow.vbr % 2 == 1
}

// Number 3, of the interrupt call: taking its cycles off would leave the 32-bit numbers.
#[tactic(auto, unfolding(crate::specs::Refusals::bad_cycles))]
pub fn bad_cycles(interrupt: bool, c: Cpu) -> bool
    ensures { result ≡ bad_cycles interrupt c }
{
    interrupt && !pending::interrupts::has_cycles(c)
}

// Number 4: a function code above 7.
#[tactic(auto, unfolding(crate::specs::Refusals::bad_code, cpu::specs::Fields::has_fc_override, cpu::specs::Fields::fc_override_of))]
pub fn bad_code(c: Cpu) -> bool
    ensures { result ≡ bad_code c }
{
    let code = c.fault.mmu_fc_override;
    code.some && 7 < code.value
}

// Number 5, where a store is lent: its `len` bytes are too many, or reach past 2^32.
#[tactic(auto, unfolding(crate::specs::Refusals::bad_store))]
pub fn bad_store(lent: bool, b: Bus, len: usize) -> bool
    ensures { result ≡ bad_store lent b len }
{
    lent && (65536 < len || 0x100000000 < b.base as usize + len)
}

// Whether window k ends past 2^32.
#[tactic(auto, unfolding(crate::specs::Refusals::past_top))]
fn past_top(b: Bus, k: usize) -> bool
    requires { k < 8 }
    ensures { result ≡ past_top b k }
{
    0x100000000 < u64::from(b.starts[k]) + u64::from(b.lengths[k])
}

// Whether one of the first `count` windows does.
#[tactic(auto, using(crate::proofs::Windows::past_more, crate::proofs::Windows::none_more), unfolding(crate::specs::Refusals::any_past))]
fn any_past(b: Bus, count: u32) -> bool
    requires { count ≤ 8 }
    ensures { result ≡ any_past b count }
{
    for k in 0..count as usize {
        if past_top(b, k) {
            return true;
        }
    }
    false
}

// Number 6, where a store is lent: more than 8 windows, or one that ends past 2^32.
#[tactic(auto, unfolding(crate::specs::Refusals::bad_windows))]
pub fn bad_windows(lent: bool, b: Bus) -> bool
    ensures { result ≡ bad_windows lent b }
{
    lent && (8 < b.windows || any_past(b, b.windows))
}

// Number 7, where a log is lent: its `len` words are too few for the events of a call.
#[tactic(auto, unfolding(crate::specs::Refusals::short_log))]
pub fn short_log(lent: bool, len: usize) -> bool
    ensures { result ≡ short_log lent len }
{
    lent && len < 192
}

// Number 8: no such vector. A call that is given none has 0 here.
#[tactic(auto, unfolding(crate::specs::Refusals::bad_vector))]
pub fn bad_vector(v: u32) -> bool
    ensures { result ≡ bad_vector v }
{
    255 < v
}

// Number 9: no such kind, or a floating-point entry on a kind other than the 68060.
#[tactic(auto, unfolding(crate::specs::Refusals::bad_kind, cpu::specs::Fields::kind_of))]
pub fn bad_kind(floating: bool, c: Cpu) -> bool
    ensures { result ≡ bad_kind floating c }
{
    let kind = c.flow.cpu_type;
    types::M68060 < kind || floating && kind != types::M68060
}

// Whether a call that is given this is accepted, on a store of `stored` bytes and a log of `logged` words; or the refusal of the lowest
// number.
#[tactic(auto, unfolding(crate::specs::Refusals::refusal_of, crate::specs::Refusals::tests_of, crate::specs::Refusals::first_number))]
pub fn check(m: Core, stored: usize, logged: usize, given: Given) -> Result<(), Refusal>
    ensures { refusal_number result ≡ refusal_of m stored logged (matter given) }
{
    if bad_flags(m.cpu) {
        Err(Refusal::Flags)
    } else if odd_base(m.cpu) {
        Err(Refusal::OddBase)
    } else if bad_cycles(given.is_interrupt(), m.cpu) {
        Err(Refusal::Cycles)
    } else if bad_code(m.cpu) {
        Err(Refusal::Code)
    } else if bad_store(given.has_store(), m.bus, stored) {
        Err(Refusal::Store)
    } else if bad_windows(given.has_store(), m.bus) {
        Err(Refusal::Windows)
    } else if short_log(given.has_log(), logged) {
        Err(Refusal::Log)
    } else if bad_vector(given.vector()) {
        Err(Refusal::Vector)
    } else if bad_kind(given.is_floating(), m.cpu) {
        Err(Refusal::Kind)
    } else {
        Ok(())
    }
}
