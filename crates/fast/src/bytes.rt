// Words, longs and events at places that are there. They ask for that, which no public function may, so `memory` does not lend its own.
ghost use Rattle.std.specs.Prelude.{◌≡◌, ◌+◌, ◌*◌, ◌<◌, ◌≤◌, length};
ghost use Rattle.memory.specs.Bytes.{put_word, put_long, get_word, get_long};
ghost use Rattle.memory.specs.Log.{note_log};

#[tactic(auto, unfolding(memory::specs::Bytes::put_word))]
pub(crate) fn put_word(store: &mut [u8], at: usize, v: u32)
    requires { (at + 2 ≤ length store.old) × (v < 0x10000) }
    ensures { store.new ≡ put_word store.old at v }
{
    store[at] = (v / 256) as u8;
    store[at + 1] = (v % 256) as u8;
}

#[tactic(auto, unfolding(memory::specs::Bytes::put_long))]
pub(crate) fn put_long(store: &mut [u8], at: usize, v: u32)
    requires { at + 4 ≤ length store.old }
    ensures { store.new ≡ put_long store.old at v }
{
    put_word(store, at, v / 0x10000);
    put_word(store, at + 2, v % 0x10000);
}

// Event number n: number 7 asks for room for 64.
#[tactic(auto, unfolding(memory::specs::Log::note_log))]
pub(crate) fn event(log: &mut [u32], n: u32, code: u32, address: u32, value: u32)
    requires { (n < 64) × (192 ≤ length log.old) }
    ensures { log.new ≡ note_log n log.old code address value }
{
    let at = (n as usize) * 3;
    log[at] = code;
    log[at + 1] = address;
    log[at + 2] = value;
}

#[tactic(auto, unfolding(memory::specs::Bytes::get_word))]
pub(crate) fn get_word(store: &[u8], at: usize) -> u32
    requires { at + 2 ≤ length store.now }
    ensures { (result ≡ get_word store.now at) × (result < 0x10000) }
{
    store[at] as u32 * 256 + store[at + 1] as u32
}

#[tactic(auto, unfolding(memory::specs::Bytes::get_long))]
pub(crate) fn get_long(store: &[u8], at: usize) -> u32
    requires { at + 4 ≤ length store.now }
    ensures { result ≡ get_long store.now at }
{
    get_word(store, at) * 0x10000 + get_word(store, at + 2)
}
