// Big-endian words and longs in a slice. They ask for room, which no public function may, so other crates have their own.
// `to_be_bytes` and a copied slice would be no shorter than the two stores.
ghost use Rattle.std.specs.Prelude.{◌≡◌, ◌+◌, ◌%◌, ◌<◌, ◌≤◌, length};
ghost use Rattle.types.specs.Kinds.{pick};
ghost use Rattle.memory.specs.Bytes.{put_word, put_long, get_word, get_long};
ghost use Rattle.memory.specs.World.{width_of};

#[tactic(auto, unfolding(crate::specs::Bytes::put_word))]
pub(crate) fn put_word(store: &mut [u8], at: usize, v: u16)
    requires { at + 2 ≤ length store.old }
    ensures { store.new ≡ put_word store.old at v }
{
    store[at] = (v / 256) as u8;
    store[at + 1] = (v % 256) as u8;
}

#[tactic(auto, unfolding(crate::specs::Bytes::put_long))]
pub(crate) fn put_long(store: &mut [u8], at: usize, v: u32)
    requires { at + 4 ≤ length store.old }
    ensures { store.new ≡ put_long store.old at v }
{
    put_word(store, at, (v / 0x10000) as u16);
    put_word(store, at + 2, (v % 0x10000) as u16);
}

// A long, or a word of the value's low 16 bits.
#[tactic(auto, unfolding(crate::specs::Bytes::put_long, crate::specs::Bytes::put_word))]
pub(crate) fn put(store: &mut [u8], at: usize, long: bool, v: u32)
    requires { at + width_of long ≤ length store.old }
    ensures { store.new ≡ pick long (put_long store.old at v) (put_word store.old at (v % 0x10000)) }
{
    if long {
        put_long(store, at, v);
    } else {
        put_word(store, at, (v % 0x10000) as u16);
    }
}

#[tactic(auto, unfolding(crate::specs::Bytes::get_word))]
pub(crate) fn get_word(store: &[u8], at: usize) -> u32
    requires { at + 2 ≤ length store.now }
    ensures { (result ≡ get_word store.now at) × (result < 0x10000) }
{
    u32::from(store[at]) * 256 + u32::from(store[at + 1])
}

#[tactic(auto, unfolding(crate::specs::Bytes::get_long))]
pub(crate) fn get_long(store: &[u8], at: usize) -> u32
    requires { at + 4 ≤ length store.now }
    ensures { result ≡ get_long store.now at }
{
    get_word(store, at) * 0x10000 + get_word(store, at + 2)
}

// A long or a word.
#[tactic(auto, unfolding(crate::specs::Bytes::get_long, crate::specs::Bytes::get_word))]
pub(crate) fn get(store: &[u8], at: usize, long: bool) -> u32
    requires { at + width_of long ≤ length store.now }
    ensures { result ≡ pick long (get_long store.now at) (get_word store.now at) }
{
    if long {
        get_long(store, at)
    } else {
        get_word(store, at)
    }
}
