// Replays recorded answers of the oracle (tools/sample.sh makes data/sample.bin): each case is a call, a return or a walk on the proved
// code, and its answer, the number of events, each event word, each word of a row, the whole record and the whole store must be those
// that the oracle gave, and log and rows behind them as they were. It uses `boundary`, `unwind`, for the verdict `same`, and for the files
// and what it prints std; nothing uses it.
#![tactic(auto)]

ghost use Rattle.std.specs.Prelude.{◌≤◌, length, IfOk};

use boundary::RawAnswer;
use memory::Core;
use numbers::RawCall;
use same::Left;
use std::fs::File;
use std::io;
use std::io::Read;
use std::ops::ControlFlow;
use unwind::returns::Row;

mod list; // numbers and lists of a case
mod record; // words to a record and back

// The numbers of a case that is no call by number.
const RETURN: u32 = 200;

const WALK: u32 = 201;

// The number of no refusal: what stands for a call that can't be made.
const NOT_MADE: u32 = 98;

fn call_of(w: &[u32; 136]) -> RawCall {
    RawCall {
        number: w[128],
        a: w[129],
        b: w[130],
        c: w[131],
        d: w[132],
        e: w[133],
    }
}

// The refusal is a number, as the recorded words have it.
fn answered(core: Core, refused: u32, answer: u32) -> RawAnswer {
    RawAnswer {
        core,
        refused,
        answer,
        events: 0,
    }
}

// The call on the first bytes of the store and all but the last words of the log, as many as the case says.
fn call(w: &[u32; 136], store: &mut [u8], log: &mut [u32]) -> Option<RawAnswer> {
    let words = log.len().checked_sub(w[134] as usize)?;
    let store = store.get_mut(..w[123] as usize)?;
    let log = log.get_mut(..words)?;
    Some(boundary::raw_call(record::core_of(w), store, log, call_of(w)))
}

// The row of a return, the first of the rows; all 0 where it was refused.
fn put_row(rows: &mut [u32; 32], r: Row) {
    rows[0] = r.format;
    rows[1] = r.status;
    rows[2] = r.address;
    rows[3] = r.offset;
}

// The return on the first bytes of the store.
fn return_case(w: &[u32; 136], store: &[u8], rows: &mut [u32; 32]) -> Option<RawAnswer> {
    let store = store.get(..w[123] as usize)?;
    let m = record::core_of(w);
    Some(match unwind::return_from(m, store) {
        Ok(returned) => {
            put_row(rows, returned.row);
            answered(returned.core, 0, 0)
        }
        Err(refusal) => {
            put_row(rows, Row::ZEROS);
            answered(m, refusal.number(), 0)
        }
    })
}

// The walk on the first bytes of the store, into the first words of the rows. It is given a copy of the record and gives none back.
fn walk_case(w: &[u32; 136], store: &[u8], rows: &mut [u32]) -> Option<RawAnswer> {
    let m = record::core_of(w);
    let store = store.get(..w[123] as usize)?;
    let rows = rows.get_mut(..w[130] as usize)?;
    let r = unwind::walk(m, store, w[129], rows);
    Some(answered(m, r.refused, r.count))
}

// The call of a case, if store, log and rows are as long as it says.
fn call_case(left: &mut Left) -> Option<RawAnswer> {
    let w = left.words;
    match w[128] {
        RETURN => return_case(&w, &left.store, &mut left.rows),
        WALK => walk_case(&w, &left.store, &mut left.rows),
        _ => call(&w, &mut left.store, &mut left.log),
    }
}

// The core and the answer that a call left, laid over the words of its case.
fn put_answer(w: &mut [u32; 136], r: RawAnswer) {
    record::put_core(w, r.core);
    w[125] = r.refused;
    w[126] = r.answer;
    w[127] = r.events;
}

fn low_byte(n: u32) -> u8 {
    (n % 256) as u8
}

// Whether the call leaves what was recorded; nothing where the case is cut off. Log and rows that are lent hold words other than 0, on
// which events and rows come to lie.
fn verdict(case: &[u8]) -> Option<bool> {
    let mut rest = case;
    let mut left = Left {
        words: [0; 136],
        log: [0; 192],
        rows: [0; 32],
        store: [0; 0x10000],
    };
    list::pairs(&mut rest, &mut left.words, |n| n)?;
    let fill = left.words[124];
    list::fill(&mut left.store, fill);
    list::fill_words(&mut left.log, fill);
    list::fill_words(&mut left.rows, fill);
    list::pairs(&mut rest, &mut left.store, low_byte)?;
    let mut want = left;
    list::pairs(&mut rest, &mut want.words, |n| n)?;
    list::pairs(&mut rest, &mut want.store, low_byte)?;
    list::row(&mut rest, &mut want.log)?;
    list::row(&mut rest, &mut want.rows)?;
    let answer = match call_case(&mut left) {
        Some(answer) => answer,
        None => answered(record::core_of(&left.words), NOT_MADE, 0),
    };
    put_answer(&mut left.words, answer);
    Some(same::same_case(rest.is_empty(), &left, &want))
}

// What was replayed so far: cases, those that differ, and the number of the first that does, from 1.
#[derive(Clone, Copy, Default)]
struct Tally {
    cases: u64,
    differ: u64,
    first: Option<u64>,
}

impl Tally {
    fn count(&mut self, same: bool) {
        self.cases = self.cases.saturating_add(1);
        if !same {
            self.differ = self.differ.saturating_add(1);
            self.first = self.first.or(Some(self.cases));
        }
    }
}

// Reads until the buffer is full or the file ends, and says how many bytes came.
fn read_full(file: &mut File, buffer: &mut [u8]) -> io::Result<usize>
    ensures { IfOk result (λ n. n ≤ length buffer.new) }
{
    // No iterator: how far each turn goes is what the read answers.
    let mut done = 0;
    while done < buffer.len() {
        let n = file.read(&mut buffer[done..])?;
        if n == 0 {
            break;
        }
        done += n;
    }
    Ok(done)
}

// One case: two bytes of length, and so many bytes. A case that is cut off counts as one that differs, and is the last.
fn step(file: &mut File, tally: &mut Tally) -> io::Result<ControlFlow<()>> {
    let mut head = [0u8; 2];
    if read_full(file, &mut head)? == 0 {
        return Ok(ControlFlow::Break(()));
    }
    let n = usize::from(u16::from_be_bytes(head));
    let mut buffer = [0u8; 0x1000];
    if buffer.len() < n || read_full(file, &mut buffer[..n])? != n {
        tally.count(false);
        return Ok(ControlFlow::Break(()));
    }
    tally.count(verdict(&buffer[..n]) == Some(true));
    Ok(ControlFlow::Continue(()))
}

// No file has as many cases as there are turns.
fn replay(file: &mut File) -> io::Result<Tally> {
    let mut tally = Tally::default();
    for _ in 0..u32::MAX {
        if step(file, &mut tally)?.is_break() {
            break;
        }
    }
    Ok(tally)
}

fn report(rt: &impl Print, tally: Tally) -> io::Result<()> {
    let Tally {
        cases,
        differ,
        first,
    } = tally;
    println!(rt; "replayed {cases} cases, {differ} differences")?;
    if let Some(first) = first {
        println!(rt; "the first: case {first}")?;
    }
    Ok(())
}

fn replay_all(rt: &impl Print, mut file: File) -> io::Result<()> {
    let tally = replay(&mut file)?;
    report(rt, tally)
}

// The recorded answers, and then spoiled ones, on each of which it must find a difference.
fn main(rt: HostRuntime) -> io::Result<()> {
    let file = File::open(&rt, "sample.bin")?;
    replay_all(&rt, file)?;
    let other = File::open(&rt, "spoiled.bin")?;
    print!(rt; "spoiled answers: ")?;
    replay_all(&rt, other)
}
