// Lines that a session prints, appended to what is printed: the line of an acting command, of a row, of a refusal. Each is appended
// whole or, where 34 bytes may not be left, not at all. It uses `arrayvec` and `itoa` of the toolchain's crates, `types` for its
// definitions; `sessions` uses it.
#![tactic(auto)]

ghost use Rattle.std.specs.Prelude.{◌≡◌, [], ◌∷◌, ◌+◌, ◌%◌, ◌≤◌, ◌<◌, length};
ghost use Rattle.arrayvec.specs.ArrayVec.{array_vec_len};
ghost use Rattle.prints.specs.Prints.{more, hex_byte, hex, decimal_of, state_line, row_line, refused_line, laid};

use arrayvec::ArrayVec;

pub mod places; // a line laid into a slice at a place

// No line is longer.
const LINE_LIMIT: usize = 34;

// Bytes for which there is room. How much is asked of each function by itself, since no two write as many.
fn put<const CAP: usize>(out: &mut ArrayVec<u8, CAP>, bytes: &[u8])
    requires { array_vec_len out.old + length bytes.now ≤ CAP }
    ensures items { out.new.items ≡ more out.old.items bytes.now }
    ensures len { array_vec_len out.new ≡ array_vec_len out.old + length bytes.now }
{
    out.try_extend_from_slice(bytes).unwrap();
}

// A capital hexadecimal digit. What is printed are bytes of a fixed form in memory that does not grow, so there is no `Display`.
fn hex_byte(d: u8) -> u8
    requires { d < 16 }
    ensures { result ≡ hex_byte d }
{
    if d < 10 { b'0' + d } else { b'A' - 10 + d }
}

// The lowest digits of v, so many.
fn put_hex<const CAP: usize>(out: &mut ArrayVec<u8, CAP>, digits: u32, v: u32)
    requires { (digits ≤ 8) × (array_vec_len out.old + digits ≤ CAP) }
    ensures items { out.new.items ≡ more out.old.items (hex digits v) }
    ensures len { array_vec_len out.new ≡ array_vec_len out.old + digits }
{
    for place in (0..digits).rev() {
        out.push(hex_byte(((v >> (4 * place)) % 16) as u8));
    }
}

// A space before them.
fn put_field<const CAP: usize>(out: &mut ArrayVec<u8, CAP>, digits: u32, v: u32)
    requires { (digits ≤ 8) × (array_vec_len out.old + 1 + digits ≤ CAP) }
    ensures items { out.new.items ≡ more out.old.items (32 ∷ hex digits v) }
    ensures len { array_vec_len out.new ≡ array_vec_len out.old + 1 + digits }
{
    out.push(b' ');
    put_hex(out, digits, v);
}

// v in decimal, which takes at most 10 digits.
fn put_decimal<const CAP: usize>(out: &mut ArrayVec<u8, CAP>, v: u32)
    requires { array_vec_len out.old + 10 ≤ CAP }
    ensures items { out.new.items ≡ more out.old.items (decimal_of 10 v) }
    ensures bound { array_vec_len out.new ≤ array_vec_len out.old + 10 }
{
    let mut text = itoa::Buffer::new();
    put(out, text.format(v).as_bytes());
}

/// Cycles, PC, status and A7, where there is room.
pub fn state_line<const CAP: usize>(
    out: &mut ArrayVec<u8, CAP>,
    cycles: u32,
    pc: u32,
    sr: u32,
    a7: u32,
)
    ensures line { out.new.items ≡ laid CAP out.old.items (state_line cycles pc sr a7) }
    ensures bound { array_vec_len out.new ≤ array_vec_len out.old + 34 }
{
    if LINE_LIMIT <= out.remaining_capacity() {
        put_decimal(out, cycles);
        put_field(out, 8, pc);
        put_field(out, 4, sr);
        put_field(out, 8, a7);
        out.push(b'\n');
    }
}

/// A row of a walk: format, status, address, offset, where there is room.
pub fn row_line<const CAP: usize>(
    out: &mut ArrayVec<u8, CAP>,
    format: u32,
    status: u32,
    address: u32,
    offset: u32,
)
    ensures line { out.new.items ≡ laid CAP out.old.items (row_line format status address offset) }
    ensures bound { array_vec_len out.new ≤ array_vec_len out.old + 20 }
{
    if LINE_LIMIT <= out.remaining_capacity() {
        put_hex(out, 1, format);
        put_field(out, 4, status);
        put_field(out, 8, address);
        put_field(out, 3, offset);
        out.push(b'\n');
    }
}

/// A refusal and its number, where there is room.
pub fn refused_line<const CAP: usize>(out: &mut ArrayVec<u8, CAP>, n: u32)
    ensures line { out.new.items ≡ laid CAP out.old.items (refused_line n) }
    ensures bound { array_vec_len out.new ≤ array_vec_len out.old + 19 }
{
    if LINE_LIMIT <= out.remaining_capacity() {
        put(out, b"refused ");
        put_decimal(out, n);
        out.push(b'\n');
    }
}
