// One line of a session to a command: names, numbers with their digits, one space between fields. It uses `types` for its
// definitions; `sessions` acts on what it answers.
#![tactic(auto)]

use numbers::{byte_in, decimal, hexadecimal};

mod numbers; // digits to a number

ghost use Rattle.std.specs.Prelude.{◌≡◌, ◌<◌, ◌≤◌, IfSome, length};
ghost use Rattle.std.specs.Option.{unwrap_or};
ghost use Rattle.lines.specs.Commands.{space_in, long_fields, word_in, command_of};

// A longer line is not understood.
const LINE_LIMIT: usize = 80;

// What a line asks for.
#[derive(Clone, Copy, Debug, PartialEq, Eq)]
pub enum Command {
    Kind(u8),
    Pc(u32),
    Ppc(u32),
    A7(u32),
    Long(u32, u32),
    Exc(u32),
    Trap(u8),
    Irq(u8),
    Walk(u32),
    Ret,
}

// The place of the first space.
fn space(s: &[u8]) -> Option<usize>
    ensures place { unwrap_or result (length s.now) ≡ space_in s.now }
    ensures inside { IfSome result (λ k. k < length s.now) }
{
    s.iter().position(|&b| b == b' ')
}

// The two fields of `long`.
fn long_fields(fields: &[u8]) -> Option<Command>
    ensures { result ≡ long_fields fields.now }
{
    let space = space(fields)?;
    let address = hexadecimal(&fields[..space])?;
    let value = hexadecimal(&fields[space + 1..])?;
    Some(Command::Long(address, value))
}

// A line of at most 80 bytes.
fn word_in(line: &[u8]) -> Option<Command>
    requires { length line.now ≤ 80 }
    ensures { result ≡ word_in line.now }
{
    if let Some(field) = line.strip_prefix(b"trap ") {
        return byte_in(hexadecimal(field)).map(Command::Trap);
    }
    if let Some(field) = line.strip_prefix(b"irq ") {
        return byte_in(decimal(field)).map(Command::Irq);
    }
    if let Some(field) = line.strip_prefix(b"walk ") {
        return decimal(field).map(Command::Walk);
    }
    if let Some(fields) = line.strip_prefix(b"long ") {
        return long_fields(fields);
    }
    if let Some(field) = line.strip_prefix(b"exc ") {
        return hexadecimal(field).map(Command::Exc);
    }
    if let Some(field) = line.strip_prefix(b"kind ") {
        return byte_in(decimal(field)).map(Command::Kind);
    }
    if let Some(field) = line.strip_prefix(b"a7 ") {
        return hexadecimal(field).map(Command::A7);
    }
    if let Some(field) = line.strip_prefix(b"pc ") {
        return hexadecimal(field).map(Command::Pc);
    }
    if let Some(field) = line.strip_prefix(b"ppc ") {
        return hexadecimal(field).map(Command::Ppc);
    }
    if line == b"ret".as_slice() {
        return Some(Command::Ret);
    }
    None
}

// A line, without its line feed, to a command; none where it is not understood.
pub fn parse(line: &[u8]) -> Option<Command>
    ensures { result ≡ command_of line.now }
{
    if LINE_LIMIT < line.len() {
        return None;
    }
    word_in(line)
}
