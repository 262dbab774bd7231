// The session program: lines of commands on standard input, answers on standard output. What it writes for the bytes that it reads is
// `printed` of sessions/specs/Printed, proved over any reader and writer whose bytes are known: the library takes blocks of the input,
// cut anywhere, and lays what they print into a buffer; here blocks are read and buffers written. Its memory does not grow with the input. A read or a write that fails ends it with that error. It uses
// `sessions`, `arrayvec` for its buffers, and std to read and to write; nothing uses it.
#![tactic(auto)]

ghost use Rattle.std.specs.Prelude.{OnOk};
ghost use Rattle.sessions.specs.Machines.{reading};
ghost use Rattle.session.specs.Plays.{Takes, Plays, Prints};

use arrayvec::ArrayVec;
use sessions::input::Reader;
use sessions::{Machine, Printed};
use std::io;
use std::io::{Read, Write};

// The bytes of one read, in as many parts as their answers need.
fn take_read<W: Write>(
    session: &mut Reader,
    store: &mut [u8],
    log: &mut [u32],
    out: &mut Printed,
    bytes: &[u8],
    output: &mut W,
) -> io::Result<()>
    ensures { OnOk result (Takes (reading session.old store.old log.old out.old) bytes.now (reading session.new store.new log.new out.new) (W.contents output.old) (W.contents output.new)) }
{
    // No iterator: how far each turn goes is what the session answers.
    let mut rest = bytes;
    while !rest.is_empty() {
        let used = session.take_block(store, log, out, rest);
        output.write_all(out.as_slice())?;
        rest = &rest[used..];
    }
    Ok(())
}

// All the input, and its end. No input has as many reads as there are turns.
fn play<R: Read, W: Write>(
    session: &mut Reader,
    store: &mut [u8],
    log: &mut [u32],
    out: &mut Printed,
    input: &mut R,
    output: &mut W,
) -> io::Result<()>
    ensures { OnOk result (Plays (reading session.old store.old log.old out.old) (R.remaining input.old) (W.contents output.old) (W.contents output.new)) }
{
    let mut buffer = [0u8; 65536];
    for _ in 0..u64::MAX {
        let n = input.read(&mut buffer)?;
        if n == 0 {
            session.finish(store, log, out);
            return output.write_all(out.as_slice());
        }
        take_read(session, store, log, out, &buffer[..n], output)?;
    }
    Err(io::Error::from(io::ErrorKind::Other))
}

// A session from its start.
fn play_from_start<R: Read, W: Write>(input: &mut R, output: &mut W) -> io::Result<()>
    ensures { OnOk result (Prints (R.remaining input.old) (W.contents output.old) (W.contents output.new)) }
{
    let mut store = [0u8; 65536];
    let mut log = [0u32; 192];
    let mut rows = [0u32; 16384];
    let mut out = ArrayVec::new();
    let machine = Machine {
        core: sessions::fresh_core(1),
        rows: &mut rows,
    };
    let mut session = Reader {
        machine,
        line: ArrayVec::new(),
    };
    play(&mut session, &mut store, &mut log, &mut out, input, output)
}

fn main(rt: HostRuntime) -> io::Result<()> {
    play_from_start(&mut rt.stdin(), &mut rt.stdout())
}
