// Words, longs and events at places that are there, and the events of clocks and of a jump, as in `fast`: they ask something of their caller, which no
// public function may, so they stand here again.
ghost use Rattle.std.specs.Prelude.{◌≡◌, true, ◌+◌, ◌*◌, ◌<◌, ◌≤◌, length};
ghost use Rattle.memory.specs.Bytes.{put_word, put_long};
ghost use Rattle.memory.specs.Log.{note_log};
ghost use Rattle.fast.specs.Stacks.{clocks_at, clocks_count, jump_at, jump_count};

use fast::landings::Landing;

#[tactic(auto, unfolding(memory::specs::Bytes::put_word))]
pub(crate) fn put_word(store: &mut [u8], at: usize, v: u32)
    requires { (at + 2 ≤ length store.old) × (v < 0x10000) }
    ensures { store.new ≡ put_word store.old at v }
{
    store[at] = (v / 256) as u8;
    store[at + 1] = (v % 256) as u8;
}

#[tactic(auto, unfolding(memory::specs::Bytes::put_long))]
pub(crate) fn put_long(store: &mut [u8], at: usize, v: u32)
    requires { at + 4 ≤ length store.old }
    ensures { store.new ≡ put_long store.old at v }
{
    put_word(store, at, v / 0x10000);
    put_word(store, at + 2, v % 0x10000);
}

// Event number n: number 7 asks for room for 64.
#[tactic(auto, unfolding(memory::specs::Log::note_log))]
pub(crate) fn event(log: &mut [u32], n: u32, code: u32, address: u32, value: u32)
    requires { (n < 64) × (192 ≤ length log.old) }
    ensures { log.new ≡ note_log n log.old code address value }
{
    let at = (n as usize) * 3;
    log[at] = code;
    log[at + 1] = address;
    log[at + 2] = value;
}

// Clocks that wait are told; how many events there are then.
#[tactic(auto, unfolding(fast::specs::Stacks::clocks_at, fast::specs::Stacks::clocks_count))]
pub(crate) fn tell_clocks(log: &mut [u32], n: u32, clocks: u32) -> u32
    requires { (n < 64) × (192 ≤ length log.old) }
    ensures { (result ≡ clocks_count n clocks) × (result ≤ n + 1) × (log.new ≡ clocks_at n clocks log.old) }
{
    if 0 < clocks {
        event(log, n, 5, 0, clocks);
        return n + 1;
    }
    n
}

// The events of the jump, from event n on; how many there are then.
#[tactic(auto, unfolding(fast::specs::Stacks::jump_at, fast::specs::Stacks::jump_count))]
pub(crate) fn tell_jump(log: &mut [u32], n: u32, l: Landing, fetched: bool) -> u32
    requires { (n + 5 ≤ 64) × (fetched ≡ true → l.pc + 2 < 0x100000000) × (192 ≤ length log.old) }
    ensures { (result ≡ jump_count n fetched) × (log.new ≡ jump_at n l fetched log.old) }
{
    event(log, n, 7, 0, 0);
    event(log, n + 1, 2, l.from, l.pc);
    if fetched {
        event(log, n + 2, 1, l.pc, l.first as u32);
        event(log, n + 3, 5, 0, 2);
        event(log, n + 4, 1, l.pc + 2, l.second as u32);
        return n + 5;
    }
    n + 2
}
