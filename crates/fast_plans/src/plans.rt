// A call as data: which entry it is, and what the entry writes.
ghost use Rattle.std.specs.Prelude.{◌≤◌, ◌≡◌, false};
ghost use Rattle.types.specs.Tables.{exception_cycles};
ghost use Rattle.fast_plans.specs.Plans.{row, row_of, stacks_next, is_long, address_of, halts, entry_plan, entry_of, takes, response_to, interrupt_plan, unimp_plan, unimp_of, plan_of};
ghost use Rattle.fast_plans.specs.declared.plans.Maker.TheVariants.{Exception};

use crate::View;
use numbers::RawCall;

// Which function of the core makes an entry.
#[derive(Clone, Copy)]
pub enum Maker {
    Exception, // take_exception
    Group2, // take_group2_exception
    Trace, // the same for a trace
}

// An entry. `rewound`: PC goes back to the instruction first.
#[derive(Clone, Copy)]
pub struct EntryRow {
    pub maker: Maker,
    pub vector: u32,
    pub rewound: bool,
}

// The shape of what an entry writes.
#[derive(Clone, Copy)]
pub enum Shape {
    Three, // the 68000's three words
    Short, // format 0
    Long, // format 2
    Old, // an interrupt on kind 1
    Four, // an interrupt on kind 2
    Late, // an interrupt on another kind
}

// What an entry writes and answers.
#[derive(Clone, Copy)]
pub struct Plan {
    pub shape: Shape,
    pub bytes: u32,
    pub clocks: u32,
    pub sr: u32,
    pub pc: u32,
    pub extra: u32,
    pub format: u32,
    pub vector: u32,
    pub level: u32,
    pub response: u32,
    pub answer: u32,
    pub last: u32,
    pub stopped: u32,
    pub mask: u32,
    pub pending: u32,
    pub serviced: bool,
    pub noted: bool,
}

fn row(maker: Maker, vector: u32, rewound: bool) -> EntryRow
    ensures { result ≡ row maker vector rewound }
{
    EntryRow {
        maker,
        vector,
        rewound,
    }
}

// The entry of a call by number, which C gives (docs/CASES.md): a further entry is a row here.
#[tactic(auto, unfolding(crate::specs::Plans::row_of))]
fn row_of(call: RawCall) -> Option<EntryRow>
    ensures { result ≡ row_of call }
{
    match call.number {
        1 => Some(row(Maker::Exception, call.a, false)),
        2 => Some(row(Maker::Exception, types::TRAP_BASE + call.a % 16, false)),
        3 => Some(row(Maker::Group2, call.a, false)),
        4 => Some(row(Maker::Group2, types::CHK, false)),
        5 => Some(row(Maker::Group2, types::ZERO_DIVIDE, false)),
        6 => Some(row(Maker::Exception, types::PRIVILEGE_VIOLATION, false)),
        7 => Some(row(Maker::Trace, types::TRACE, false)),
        12 => Some(row(Maker::Exception, types::LINE_1010, true)),
        13 => Some(row(Maker::Exception, types::LINE_1111, true)),
        14 => Some(row(Maker::Exception, types::TRAP_BASE + call.a % 16, false)),
        15 => Some(row(Maker::Exception, types::ILLEGAL_INSTRUCTION, true)),
        16 => Some(row(Maker::Exception, types::ILLEGAL_INSTRUCTION, true)),
        _ => None,
    }
}

// Cycles of an exception, by tests: an index into the table would copy it. The vectors that are taken most are tested first.
#[tactic(auto, unfolding(types::specs::Tables::exception_cycles))]
fn cycles(v: u32) -> u32
    ensures { result ≡ exception_cycles v }
{
    if 24 <= v {
        if v <= 31 { 44 } else { 34 }
    } else if v < 2 || v == 6 {
        40
    } else if v == 2 || v == 3 {
        50
    } else if v == 5 {
        38
    } else {
        34
    }
}

// The vectors for which `take_exception` stacks PC: `stacks_next` of `steps`, with what is met most tested first (docs/DECISIONS.md, 64).
#[tactic(auto, unfolding(steps::specs::Steps::stacks_next))]
fn stacks_next(v: u32) -> bool
    ensures { result ≡ stacks_next v }
{
    if 24 <= v {
        v <= 47
    } else {
        v == types::ZERO_DIVIDE || v == types::TRAPV || v == types::TRACE
    }
}

// Whether the frame is of format 2.
#[tactic(auto, unfolding(crate::specs::Plans::is_long))]
fn is_long(kind: u8, maker: Maker) -> bool
    ensures { result ≡ is_long kind maker }
{
    match maker {
        Maker::Exception => false,
        Maker::Group2 | Maker::Trace => !types::is_pre_68020(kind),
    }
}

// The address that is stacked.
#[tactic(auto, unfolding(crate::specs::Plans::address_of))]
fn address(x: View, r: EntryRow) -> u32
    ensures { result ≡ address_of x r }
{
    match r.maker {
        Maker::Exception if r.rewound || !stacks_next(r.vector) => x.ppc,
        _ => x.pc,
    }
}

// `take_exception` halts while an entry is under way.
#[tactic(auto, unfolding(crate::specs::Plans::halts))]
fn halts(x: View, r: EntryRow) -> bool
    ensures { result ≡ halts x r }
{
    match r.maker {
        Maker::Exception => x.exception,
        Maker::Group2 | Maker::Trace => false,
    }
}

#[tactic(auto, unfolding(crate::specs::Plans::entry_plan))]
fn entry_plan(x: View, r: EntryRow) -> Plan
    requires { r.vector ≤ 255 }
    ensures { result ≡ entry_plan x r }
{
    let long = is_long(x.kind, r.maker);
    let sr = status::compose(x.flags) as u32;
    let pc = address(x, r);
    let (shape, bytes, last) = if x.kind == types::M68000 {
        (Shape::Three, 6, pc / 0x10000)
    } else if long {
        (Shape::Long, 12, sr)
    } else {
        (Shape::Short, 8, sr)
    };
    Plan {
        shape,
        bytes,
        clocks: match r.maker {
            Maker::Group2 => 0,
            Maker::Exception | Maker::Trace => 4,
        },
        sr,
        pc,
        extra: x.ppc,
        format: if long { 0x2000 } else { 0 } + r.vector * 4,
        vector: r.vector,
        level: 0,
        response: 0,
        answer: cycles(r.vector),
        last,
        stopped: match r.maker {
            Maker::Trace => x.stopped - x.stopped % 2,
            Maker::Exception | Maker::Group2 => x.stopped,
        },
        mask: x.flags.int_mask,
        pending: x.flags.int_level,
        serviced: false,
        noted: false,
    }
}

#[tactic(auto, unfolding(crate::specs::Plans::entry_of))]
fn entry_of(x: View, r: EntryRow) -> Option<Plan>
    ensures { result ≡ entry_of x r }
{
    if 255 < r.vector || halts(x, r) {
        return None;
    }
    Some(entry_plan(x, r))
}

// The decision of the interrupt call, in one test: level 7 is taken whatever the mask is, as if no mask were above 6.
#[tactic(auto, unfolding(crate::specs::Plans::takes))]
pub fn takes(x: View) -> bool
    ensures { result ≡ takes x }
{
    let level = x.flags.int_level % 8;
    let mask = x.flags.int_mask / 256 % 8;
    let above = if mask == 7 { 6 } else { mask };
    above < level
}

// The response of a level.
#[tactic(auto, unfolding(crate::specs::Plans::response_to))]
fn response_to(x: View, level: u32) -> u32
    ensures { result ≡ response_to x level }
{
    let responses = x.responses;
    responses[(level % 8) as usize]
}

#[tactic(auto, unfolding(crate::specs::Plans::interrupt_plan, crate::specs::Plans::vector_of))]
pub fn interrupt_plan(x: View) -> Plan
    ensures { result ≡ interrupt_plan x }
{
    let level = x.flags.int_level % 8;
    let response = response_to(x, level);
    let v = steps::iack_vector(response, level as u8);
    let format = v * 4;
    let sr = status::compose(x.flags) as u32;
    let (shape, bytes, clocks, last) = match x.kind {
        types::M68000 => (Shape::Old, 6, 6, x.pc / 0x10000),
        types::M68010 => (Shape::Four, 8, 12, format),
        _ => (Shape::Late, 8, 0, sr),
    };
    Plan {
        shape,
        bytes,
        clocks,
        sr,
        pc: x.pc,
        extra: 0,
        format,
        vector: v,
        level,
        response,
        answer: 1,
        last,
        stopped: 0,
        mask: level * 256,
        pending: 0,
        serviced: true,
        noted: false,
    }
}

// An instruction that the 68060's floating-point unit lacks: format 2 with the operand's address, and FPIAR is the instruction's.
#[tactic(auto, unfolding(crate::specs::Plans::unimp_plan))]
fn unimp_plan(x: View, operand: u32) -> Plan
    ensures { result ≡ unimp_plan x operand }
{
    let sr = status::compose(x.flags) as u32;
    Plan {
        shape: Shape::Long,
        bytes: 12,
        clocks: 0,
        sr,
        pc: x.pc,
        extra: operand,
        format: 0x202C,
        vector: types::LINE_1111,
        level: 0,
        response: 0,
        answer: 34,
        last: sr,
        stopped: x.stopped,
        mask: x.flags.int_mask,
        pending: x.flags.int_level,
        serviced: false,
        noted: true,
    }
}

#[tactic(auto, unfolding(crate::specs::Plans::unimp_of))]
fn unimp_of(x: View, operand: u32) -> Option<Plan>
    ensures { result ≡ unimp_of x operand }
{
    types::is_060(x.kind).then_some(unimp_plan(x, operand))
}

// The plan of a call, or none.
#[tactic(auto, unfolding(crate::specs::Plans::plan_of))]
pub fn plan_of(x: View, call: RawCall) -> Option<Plan>
    ensures { result ≡ plan_of x call }
{
    match call.number {
        22 if x.room => Some(interrupt_plan(x)),
        22 => None,
        10 => unimp_of(x, call.a),
        _ => entry_of(x, row_of(call)?),
    }
}

// The plan of `take_exception`, as `entry_plan` has it, by code for that entry alone: its export is there for speed, and a function that is called from
// two places is not inlined.
#[tactic(auto, unfolding(crate::specs::Plans::entry_plan, crate::specs::Plans::is_long, crate::specs::Plans::address_of))]
fn exception_plan(x: View, v: u32) -> Plan
    requires { v ≤ 255 }
    ensures { result ≡ entry_plan x (row Exception v false) }
{
    let sr = status::compose(x.flags) as u32;
    let pc = if stacks_next(v) { x.pc } else { x.ppc };
    let (shape, bytes, last) = if x.kind == types::M68000 {
        (Shape::Three, 6, pc / 0x10000)
    } else {
        (Shape::Short, 8, sr)
    };
    Plan {
        shape,
        bytes,
        clocks: 4,
        sr,
        pc,
        extra: x.ppc,
        format: v * 4,
        vector: v,
        level: 0,
        response: 0,
        answer: cycles(v),
        last,
        stopped: x.stopped,
        mask: x.flags.int_mask,
        pending: x.flags.int_level,
        serviced: false,
        noted: false,
    }
}

#[tactic(auto, unfolding(crate::specs::Plans::entry_of, crate::specs::Plans::halts))]
pub fn exception_of(x: View, v: u32) -> Option<Plan>
    ensures { result ≡ entry_of x (row Exception v false) }
{
    if 255 < v || x.exception {
        return None;
    }
    Some(exception_plan(x, v))
}
