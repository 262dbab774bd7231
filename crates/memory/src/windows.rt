// Whether an access is served: all its bytes in the store and none in a fault window.
ghost use Rattle.std.specs.Prelude.{◌≡◌, ◌-◌, ◌<◌, ◌≤◌};
ghost use Rattle.memory.specs.Served.{meets, clear_of, in_store, served_of, place_of, windows_in_use};

use crate::Bus;

// Whether window k holds a byte of the n bytes from a on.
#[tactic(auto, unfolding(crate::specs::Served::meets))]
fn window_meets(b: Bus, k: usize, a: u64, n: u64) -> bool
    requires { (k < 8) × (a < 0x100000000) × (n < 0x100000000) }
    ensures { result ≡ meets b k a n }
{
    let from = u64::from(b.starts[k]);
    let size = u64::from(b.lengths[k]);
    size != 0 && a < from + size && from < a + n
}

// Whether the first `left` windows hold no byte of the access.
#[tactic(auto, using(crate::proofs::Clear::met), unfolding(crate::specs::Served::clear_of))]
fn clear_of(b: Bus, left: u32, a: u64, n: u64) -> bool
    requires { (left ≤ 8) × (a < 0x100000000) × (n < 0x100000000) }
    ensures { result ≡ clear_of b left a n }
{
    for k in 0..left {
        if window_meets(b, k as usize, a, n) {
            return false;
        }
    }
    true
}

// At most 8 windows count. More are refused by number 6 before any access.
#[tactic(auto, unfolding(crate::specs::Served::windows_in_use))]
fn windows_in_use(b: Bus) -> u32
    ensures { (result ≡ windows_in_use b) × (result ≤ 8) }
{
    b.windows.min(8)
}

// Whether n bytes from a on are all in a store of `len` bytes.
#[tactic(auto, unfolding(crate::specs::Served::in_store))]
fn in_store(b: Bus, len: usize, a: u32, n: u32) -> bool
    ensures { result ≡ in_store b len a n }
{
    b.base <= a && (a - b.base) as usize + n as usize <= len
}

#[tactic(auto, unfolding(crate::specs::Served::served_of))]
pub fn is_served(b: Bus, len: usize, a: u32, n: u32) -> bool
    ensures { result ≡ served_of b len a n }
{
    in_store(b, len, a, n) && clear_of(b, windows_in_use(b), u64::from(a), u64::from(n))
}

// The place in the store of an address at or above the base.
#[tactic(auto, unfolding(crate::specs::Served::place_of))]
pub fn place(b: Bus, a: u32) -> usize
    ensures { result ≡ place_of b a }
{
    a.saturating_sub(b.base) as usize
}
