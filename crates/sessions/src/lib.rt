// What a session does on a line and on the bytes of its input: entries go through the call by number, returns and walks through theirs, each the
// fast way first, other commands set fields and bytes, and what is printed is appended to a buffer of fixed size. It uses `lines`, `prints`,
// `fast_calls`, `fast_return`, `boundary`, `memory` and the record's crates; the program `session` lends it the buffers, reads and writes.
#![tactic(auto)]

use arrayvec::ArrayVec;
use lines::Command;
use memory::{Bus, Core};
use numbers::RawCall;

pub mod input; // the bytes of the input, cut anywhere

ghost use Rattle.std.specs.Prelude.{ℕ, List, ◌≡◌, ◌+◌, ◌*◌, ◌≤◌, leb};
ghost use Rattle.arrayvec.specs.ArrayVec.{array_vec_len};
ghost use Rattle.unwind.specs.Rows.{rows_from};
ghost use Rattle.prints.specs.Prints.{more, refused_line};
ghost use Rattle.sessions.specs.Walks.{row_texts, walk_text, walked};
ghost use Rattle.sessions.specs.Sessions.{fresh_bus, fresh_core, charge_of, interrupted, returned, act, step};
ghost use Rattle.sessions.specs.Numbered.{numbered, cycles_of, told, entered_by};
ghost use Rattle.sessions.specs.Machines.{seen, HasRoom, GrowsBy};

// The numbers of the calls that a session makes.
const EXC: u32 = 1;

const TRAP: u32 = 2;

const SET_IRQ: u32 = 20;

const SERVICE: u32 = 22;

// The number that refuses a line that is not understood.
const NOT_UNDERSTOOD: u32 = 14;

// No line prints more: 4096 rows and a refusal are shorter.
const ANSWER_LIMIT: usize = 82000;

// A walk has no more rows.
const ROW_LIMIT: u32 = 4096;

/// Room for what is printed.
pub type Printed = ArrayVec<u8, 163840>;

/// A record and its bus, and room for the rows of a walk, four words each as `walk` lays them. Store, log and output are lent to each call,
/// so that its contract says what they hold afterwards to whoever lent them.
#[derive(Drop)]
pub struct Machine<'a> {
    pub core: Core,
    pub rows: &'a mut [u32; 16384],
}

// No windows, responses 0xFFFFFFFF.
fn fresh_bus() -> Bus
    ensures { result ≡ fresh_bus }
{
    Bus {
        base: 0,
        windows: 0,
        starts: [0; 8],
        lengths: [0; 8],
        responses: [0xFFFFFFFF; 8],
        events: 0,
    }
}

/// A fresh record of the kind, and the bus of a session.
pub fn fresh_core(kind: u8) -> Core
    ensures { result ≡ fresh_core kind }
{
    Core {
        cpu: cpu::fresh::fresh(kind),
        bus: fresh_bus(),
    }
}

// `irq` costs 46 cycles on a 68010, else 44, and 0 if not taken.
#[tactic(auto, unfolding(crate::specs::Sessions::charge_of, cpu::specs::Fields::kind_of))]
fn charge(m: Core, taken: bool) -> u32
    ensures { result ≡ charge_of m taken }
{
    if !taken {
        0
    } else if cpu::fields::kind(m.cpu) == types::M68010 {
        46
    } else {
        44
    }
}

// A call by number with one argument.
fn numbered(number: u32, a: u32) -> RawCall
    ensures { result ≡ numbered number a }
{
    RawCall {
        number,
        a,
        b: 0,
        c: 0,
        d: 0,
        e: 0,
    }
}

// The cycles that a call prints, from its answer.
fn cycles_of(m: Core, number: u32, answer: u32) -> u32
    ensures { result ≡ cycles_of m number answer }
{
    if number == SERVICE {
        charge(m, answer != 0)
    } else {
        answer
    }
}

// Whether what a line prints has room.
fn has_room(out: &Printed) -> bool
    ensures { result ≡ leb (array_vec_len out.now + 82000) 163840 }
{
    ANSWER_LIMIT <= out.remaining_capacity()
}

// The line of a refusal.
fn refuse(out: &mut Printed, number: u32)
    requires { HasRoom 34 out.old }
    ensures line { out.new.items ≡ more out.old.items (refused_line number) }
    ensures bound { GrowsBy 34 out.old out.new }
{
    prints::refused_line(out, number);
}

// A line for each of the first n rows.
fn row_lines(rows: &[u32; 16384], out: &mut Printed, n: u32)
    requires { (n ≤ 4096) × (HasRoom (n * 20 + 34) out.old) }
    ensures lines { out.new.items ≡ more out.old.items (row_texts (rows_from rows.now 0 n)) }
    ensures bound { GrowsBy (n * 20) out.old out.new }
{
    // By places, as the contract counts the rows.
    for k in 0..n as usize {
        let i = k * 4;
        prints::row_line(out, rows[i], rows[i + 1], rows[i + 2], rows[i + 3]);
    }
}

impl Machine<'_> {
    // The line of an acting command, or of the number that refuses it, as the answer of a call by number has it. How much room is asked for differs.
    fn tell(&self, out: &mut Printed, refused: u32, cycles: u32)
        requires { HasRoom 34 out.old }
        ensures line { out.new.items ≡ more out.old.items (told self.now.core refused cycles) }
        ensures bound { GrowsBy 34 out.old out.new }
    {
        if refused != 0 {
            return refuse(out, refused);
        }
        let c = self.core.cpu;
        let sr = u32::from(status::get_sr(c));
        prints::state_line(out, cycles, c.flow.pc, sr, cpu::fields::a7(c));
    }

    // `exc`, `trap` and the interrupt call.
    fn enter(&mut self, store: &mut [u8], log: &mut [u32], out: &mut Printed, call: RawCall)
        requires { HasRoom 34 out.old }
        ensures line { seen self.new store.new log.new out.new ≡ entered_by (seen self.old store.old log.old out.old) call }
        ensures bound { GrowsBy 34 out.old out.new }
    {
        let x = fast_calls::raw_call(self.core, store, log, call);
        self.core = x.core;
        let cycles = cycles_of(x.core, call.number, x.answer);
        self.tell(out, x.refused, cycles);
    }

    // `irq`: `set_irq`, and then the interrupt call.
    fn interrupt(&mut self, store: &mut [u8], log: &mut [u32], out: &mut Printed, level: u8)
        requires { HasRoom 34 out.old }
        ensures line { seen self.new store.new log.new out.new ≡ interrupted (seen self.old store.old log.old out.old) level }
        ensures bound { GrowsBy 34 out.old out.new }
    {
        let set = numbered(SET_IRQ, u32::from(level));
        let x = fast_calls::raw_call(self.core, store, log, set);
        self.core = x.core;
        self.enter(store, log, out, numbered(SERVICE, 0));
    }

    // `ret`, whatever the log holds.
    fn give_back(&mut self, store: &[u8], out: &mut Printed)
        requires { HasRoom 34 out.old }
        ensures line { (log : List ℕ) → seen self.new store.now log out.new ≡ returned (seen self.old store.now log out.old) }
        ensures bound { GrowsBy 34 out.old out.new }
    {
        match fast_calls::return_from(self.core, store) {
            Ok(returned) => {
                self.core = returned.core;
                self.tell(out, 0, 0);
            }
            Err(refusal) => self.tell(out, refusal.number(), 0),
        }
    }

    // The rows of a walk, and a refusal after them.
    fn walk_rows(&mut self, store: &[u8], out: &mut Printed, n: u32)
        requires { (n ≤ 4096) × (HasRoom 82000 out.old) }
        ensures core { self.new.core ≡ self.old.core }
        ensures lines { out.new.items ≡ more out.old.items (walk_text self.old.core store.now n) }
        ensures bound { GrowsBy 82000 out.old out.new }
    {
        // The rows by a name, for two calls.
        let m = self.core;
        let rows = &mut *self.rows;
        let w = fast_return::walk(m, store, n, rows);
        row_lines(rows, out, w.count);
        if w.refused != 0 {
            refuse(out, w.refused);
        }
    }

    // `walk`.
    fn walk(&mut self, store: &[u8], out: &mut Printed, n: u32)
        requires { HasRoom 82000 out.old }
        ensures core { self.new.core ≡ self.old.core }
        ensures lines { out.new.items ≡ more out.old.items (walked self.old.core store.now n) }
        ensures bound { GrowsBy 82000 out.old out.new }
    {
        if ROW_LIMIT < n {
            refuse(out, NOT_UNDERSTOOD);
        } else {
            self.walk_rows(store, out, n);
        }
    }

    // A command.
    fn act(&mut self, store: &mut [u8], log: &mut [u32], out: &mut Printed, command: Command)
        requires { HasRoom 82000 out.old }
        ensures acts { seen self.new store.new log.new out.new ≡ act (seen self.old store.old log.old out.old) (Some command) }
        ensures bound { GrowsBy 82000 out.old out.new }
    {
        match command {
            Command::Kind(kind) => {
                self.core = fresh_core(kind);
                store.fill(0);
            }
            Command::Pc(v) => self.core.cpu = cpu::fields::set_pc(self.core.cpu, v),
            Command::Ppc(v) => self.core.cpu = cpu::fields::set_ppc(self.core.cpu, v),
            Command::A7(v) => self.core.cpu = cpu::fields::set_a7(self.core.cpu, v),
            Command::Long(a, v) => {
                if !memory::poke_long(self.core.bus, store, a, v) {
                    refuse(out, NOT_UNDERSTOOD);
                }
            }
            Command::Exc(v) => self.enter(store, log, out, numbered(EXC, v)),
            Command::Trap(n) => self.enter(store, log, out, numbered(TRAP, u32::from(n))),
            Command::Irq(n) => self.interrupt(store, log, out, n),
            Command::Walk(n) => self.walk(store, out, n),
            Command::Ret => self.give_back(store, out),
        }
    }

    // A line, without its line feed.
    fn step(&mut self, store: &mut [u8], log: &mut [u32], out: &mut Printed, line: &[u8])
        requires { HasRoom 82000 out.old }
        ensures acts { seen self.new store.new log.new out.new ≡ step (seen self.old store.old log.old out.old) line.now }
        ensures bound { GrowsBy 82000 out.old out.new }
    {
        match lines::parse(line) {
            Some(command) => self.act(store, log, out, command),
            None => refuse(out, NOT_UNDERSTOOD),
        }
    }
}
