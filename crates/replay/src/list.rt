// The lists of a case: numbers of one to five bytes, one after the other. Each function takes what it reads off the front of the bytes
// that are left, and answers nothing where too few are.
ghost use Rattle.std.specs.Prelude.{◌<◌, IfSome};

// Two bytes, the high one first.
fn word(rest: &mut &[u8]) -> Option<u32>
    ensures { IfSome result (λ n. n < 0x10000) }
{
    Some(u32::from(byte(rest)?) * 256 + u32::from(byte(rest)?))
}

fn byte(rest: &mut &[u8]) -> Option<u8> {
    rest.split_off_first().copied()
}

// A byte below 251 is the number itself; 251 stands for all ones; 252, 253 and the others come before one, two and four bytes.
fn number(rest: &mut &[u8]) -> Option<u32> {
    match byte(rest)? {
        251 => Some(u32::MAX),
        252 => byte(rest).map(u32::from),
        253 => word(rest),
        254 | 255 => long(rest),
        n => Some(u32::from(n)),
    }
}

fn long(rest: &mut &[u8]) -> Option<u32> {
    let bytes = [byte(rest)?, byte(rest)?, byte(rest)?, byte(rest)?];
    Some(u32::from_be_bytes(bytes))
}

// A count, then so many pairs: how far on from the last place, and what `of` makes of the number there. A place past the end is left out.
pub(crate) fn pairs<T: Copy + Drop, F: Fn(u32) -> T>(
    rest: &mut &[u8],
    list: &mut [T],
    of: F,
) -> Option<()>
    requires { F.IsAlwaysCallable of }
{
    let mut place: u32 = 0;
    for _ in 0..number(rest)? {
        place = place.wrapping_add(number(rest)?);
        let item = of(number(rest)?);
        if let Some(at) = list.get_mut(place as usize) {
            *at = item;
        }
    }
    Some(())
}

// A count, then so many words, from the first place on.
pub(crate) fn row(rest: &mut &[u8], list: &mut [u32]) -> Option<()> {
    for place in 0..number(rest)? {
        let item = number(rest)?;
        if let Some(at) = list.get_mut(place as usize) {
            *at = item;
        }
    }
    Some(())
}

// The byte that a store has at a place before anything is laid over it.
fn filler(place: usize, fill: u32) -> u8 {
    if fill == 0 {
        return 0;
    }
    let n = (place % 0x10000) as u32;
    ((n * 31 + fill % 256 ^ n / 256) % 256) as u8
}

pub(crate) fn fill(store: &mut [u8], fill: u32) {
    for (place, byte) in store.iter_mut().enumerate() {
        *byte = filler(place, fill);
    }
}

// The word that a log or the rows have at a place before the call.
fn unwritten(place: usize, fill: u32) -> u32
    ensures { 0 < result }
{
    0xA5000000 + fill % 256 * 0x10000 + (place % 0x10000) as u32
}

// Words that no call has written: words by another rule than the bytes, and as short alone as with the rule for a parameter.
pub(crate) fn fill_words(list: &mut [u32], fill: u32) {
    for (place, word) in list.iter_mut().enumerate() {
        *word = unwritten(place, fill);
    }
}
