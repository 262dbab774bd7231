// The bus by value and the two lent slices beside it: the store, its fault windows, the acknowledge responses, the log of bus events, and
// one access, served or not. It uses `types` and `cpu`; `access` and everything of the plain way reach the store and the log through it, but
// that `unwind` reads the bytes of a frame and `sessions` clears the store.
#![tactic(auto)]

use cpu::Cpu;

mod bytes; // big-endian words and longs in a slice
mod log; // one event at its place of the log
pub mod windows; // whether an access is served

ghost use Rattle.std.specs.Prelude.{◌≡◌, ◌%◌, length, true, Some, None};
ghost use Rattle.memory.specs.World.{world, tried, reply, read_as, try_write, try_read, raw_write, flush, release, acknowledged, noted, put_cpu, width_of, response_of, poke_long};
ghost use Rattle.types.specs.Kinds.{pick};
ghost use Rattle.memory.specs.Bytes.{put_word, put_long, get_word, get_long};
ghost use Rattle.memory.specs.Served.{served_of, place_of};
ghost use Rattle.memory.specs.Log.{counted};

// `base` and the store's length are the addresses that the store holds; of the windows the first `windows` count, each from a
// start on, some bytes long; a window of length 0 holds no byte; `responses` are by level; `events` counts what was logged. It crosses C, so
// the windows are two arrays and a count.
#[repr(C)]
#[derive(Clone, Copy)]
pub struct Bus {
    pub base: u32,
    pub windows: u32,
    pub starts: [u32; 8],
    pub lengths: [u32; 8],
    pub responses: [u32; 8],
    pub events: u32,
}

// What the log names, by the codes that it keeps. The crates of the fast way write the codes themselves, as their definitions have them.
#[derive(Clone, Copy)]
enum Event {
    ReadWord = 1,
    ReadLong = 2,
    WriteWord = 3,
    WriteLong = 4,
    Sync = 5,
    Acknowledge = 6,
    Release = 7,
}

// What is added to the code of an access that is not served.
const UNSERVED: u32 = 16;

// The record and the bus: what a function of the core takes and hands back.
#[repr(C)]
#[derive(Clone, Copy)]
pub struct Core {
    pub cpu: Cpu,
    pub bus: Bus,
}

// A write that was tried: the core after it, and whether it was served. The core means something in either case: no Result. Each struct of a
// core and a value, here and in `exceptions` and `interrupts`, has the name for its value that the contracts cite.
#[derive(Clone, Copy)]
pub struct Tried {
    pub core: Core,
    pub ok: bool,
}

// A read that was tried: the core after it, and its value, where it was served.
#[derive(Clone, Copy)]
pub struct Reply {
    pub core: Core,
    pub value: Option<u32>,
}

// An acknowledge cycle: the response of the level.
#[derive(Clone, Copy)]
pub struct Acknowledged {
    pub core: Core,
    pub response: u32,
}

// The record is replaced.
#[tactic(auto, unfolding(crate::specs::World::put_cpu))]
pub fn with_cpu(mut m: Core, c: Cpu) -> Core
    ensures { result ≡ put_cpu m c }
{
    m.cpu = c;
    m
}

#[tactic(auto, unfolding(crate::specs::Log::counted))]
fn count_up(mut b: Bus) -> Bus
    ensures { result ≡ counted b }
{
    b.events = b.events.wrapping_add(1);
    b
}

// Adds an event. Store and log are lent by C as two slices, and every function hands them on so: over a struct of the two each contract
// would have a clause more, that it still holds the same two slices, where it now has a parameter more.
#[tactic(auto, unfolding(crate::specs::World::noted))]
pub fn note(
    mut m: Core,
    store: &mut [u8],
    log: &mut [u32],
    code: u32,
    address: u32,
    value: u32,
) -> Core
    ensures { world result store.new log.new ≡ noted (world m store.old log.old) code address value }
{
    log::put_event(log, m.bus.events, code, address, value);
    m.bus = count_up(m.bus);
    m
}

// Bytes of an access: a long or a word.
pub fn width(long: bool) -> u32
    ensures { result ≡ width_of long }
{
    if long { 4 } else { 2 }
}

// The bytes of a write, laid into the store where it is served. Says whether it is.
#[tactic(auto, using(crate::proofs::Spans::room))]
fn lay(b: Bus, store: &mut [u8], address: u32, long: bool, value: u32) -> bool
    ensures { (result ≡ served_of b (length store.old) address (width_of long)) × (store.new ≡ pick result (pick long (put_long store.old (place_of b address) value) (put_word store.old (place_of b address) (value % 0x10000))) store.old) }
{
    if windows::is_served(b, store.len(), address, width(long)) {
        bytes::put(store, windows::place(b, address), long, value);
        true
    } else {
        false
    }
}

// A long laid into the store without an event, where it is served: what is there before a program runs. Says whether it is.
#[tactic(auto, unfolding(crate::specs::Served::served_of, crate::specs::World::poke_long))]
pub fn poke_long(b: Bus, store: &mut [u8], address: u32, value: u32) -> bool
    ensures { (result ≡ served_of b (length store.old) address 4) × (store.new ≡ poke_long b store.old address value) }
{
    lay(b, store, address, true, value)
}

// The code of an access's event: 16 more where it is not served.
fn access_code(write: bool, long: bool, ok: bool) -> u32
    ensures { result ≡ pick ok (pick write (pick long 4 3) (pick long 2 1)) (pick write (pick long 20 19) (pick long 18 17)) }
{
    let event = match (write, long) {
        (false, false) => Event::ReadWord,
        (false, true) => Event::ReadLong,
        (true, false) => Event::WriteWord,
        (true, true) => Event::WriteLong,
    };
    event as u32 + if ok { 0 } else { UNSERVED }
}

// A guarded write: stored and logged where it is served, else logged with 16 more.
#[tactic(auto, unfolding(crate::specs::World::try_write, crate::specs::World::raw_write, crate::specs::World::served, crate::specs::World::written, crate::specs::World::stored))]
pub fn try_write(
    m: Core,
    store: &mut [u8],
    log: &mut [u32],
    address: u32,
    long: bool,
    value: u32,
) -> Tried
    ensures { tried (world result.core store.new log.new) result.ok ≡ try_write (world m store.old log.old) address long value }
{
    let ok = lay(m.bus, store, address, long, value);
    let core = note(m, store, log, access_code(true, long, ok), address, value);
    Tried { core, ok }
}

// The value of a read, where it is served.
#[tactic(auto, using(crate::proofs::Spans::room))]
fn fetch(b: Bus, store: &[u8], address: u32, long: bool) -> Option<u32>
    ensures { result ≡ pick (served_of b (length store.now) address (width_of long)) (Some (pick long (get_long store.now (place_of b address)) (get_word store.now (place_of b address)))) None }
{
    if windows::is_served(b, store.len(), address, width(long)) {
        Some(bytes::get(store, windows::place(b, address), long))
    } else {
        None
    }
}

// A guarded read: 0 is logged where it is not served.
pub fn try_read(m: Core, store: &mut [u8], log: &mut [u32], address: u32, long: bool) -> Reply
    ensures { read_as (world result.core store.new log.new) result.value ≡ try_read (world m store.old log.old) address long }
{
    let value = fetch(m.bus, store, address, long);
    let code = access_code(false, long, value.is_some());
    let core = note(m, store, log, code, address, value.unwrap_or(0));
    Reply { core, value }
}

// A raw write goes on where it is not served.
#[tactic(auto, using(crate::proofs::Spans::raw_of_try), unfolding(crate::specs::World::try_write))]
pub fn raw_write(
    m: Core,
    store: &mut [u8],
    log: &mut [u32],
    address: u32,
    long: bool,
    value: u32,
) -> Core
    ensures { world result store.new log.new ≡ raw_write (world m store.old log.old) address long value }
{
    try_write(m, store, log, address, long, value).core
}

// `flush_sync`: clocks that wait are reported; none, no event.
#[tactic(auto, unfolding(crate::specs::World::flush, cpu::specs::Clocks::has_clocks, cpu::specs::Clocks::clocks_of))]
pub fn flush_sync(m: Core, store: &mut [u8], log: &mut [u32]) -> Core
    ensures { world result store.new log.new ≡ flush (world m store.old log.old) }
{
    let n = m.cpu.queue.pending_sync_clocks;
    if 0 < n {
        let d = with_cpu(m, cpu::clocks::set_clocks(m.cpu, 0));
        note(d, store, log, Event::Sync as u32, 0, n)
    } else {
        m
    }
}

// `ipl_release_sample`.
#[tactic(auto, unfolding(crate::specs::World::release))]
pub fn release_sample(m: Core, store: &mut [u8], log: &mut [u32]) -> Core
    ensures { world result store.new log.new ≡ release (world m store.old log.old) }
{
    note(m, store, log, Event::Release as u32, 0, 0)
}

// The response of a level, its low 3 bits.
#[tactic(auto, unfolding(crate::specs::World::response_of))]
fn response(b: Bus, level: u8) -> u32
    ensures { result ≡ response_of b level }
{
    b.responses[usize::from(level % 8)]
}

// `interrupt_acknowledge`.
#[tactic(auto, unfolding(crate::specs::World::acknowledged))]
pub fn acknowledge(m: Core, store: &mut [u8], log: &mut [u32], level: u8) -> Acknowledged
    ensures { reply (world result.core store.new log.new) true result.response ≡ acknowledged (world m store.old log.old) level }
{
    let response = response(m.bus, level);
    let code = Event::Acknowledge as u32;
    let core = note(m, store, log, code, u32::from(level), response);
    Acknowledged { core, response }
}
