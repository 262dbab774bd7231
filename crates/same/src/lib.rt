// Whether what a call left is what was recorded of it: the words of a case, the words of its log and of its rows, the bytes of its
// store. It uses no other crate; `replay` uses it, and takes its verdict on a case from here.
#![tactic(auto)]

ghost use Rattle.std.specs.Prelude.{true, ◌↔◌, ◌≡◌};

/// What a call left, or what was recorded of it.
#[derive(Clone, Copy)]
pub struct Left {
    pub words: [u32; 136],
    pub log: [u32; 192],
    pub rows: [u32; 32],
    pub store: [u8; 0x10000],
}

// Whether two lists of words are the same.
fn same_words(a: &[u32], b: &[u32]) -> bool
    ensures { (result ≡ true) ↔ (a.now ≡ b.now) }
{
    a == b
}

/// The verdict on a case, part by part, so that no part is left out unseen: that it was read to its end and no further, and that the call left the words, the log, the rows and the store
/// as recorded.
pub fn same_case(whole: bool, left: &Left, want: &Left) -> bool
    ensures { (result ≡ true) ↔ ((whole ≡ true) × (left.now.words ≡ want.now.words) × (left.now.log ≡ want.now.log)
        × (left.now.rows ≡ want.now.rows) × (left.now.store ≡ want.now.store)) }
{
    whole
        && same_words(&left.words, &want.words)
        && same_words(&left.log, &want.log)
        && same_words(&left.rows, &want.rows)
        && left.store == want.store
}
