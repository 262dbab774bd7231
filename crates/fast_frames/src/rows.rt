// Which entries have their frame as data, and the frames.
ghost use Rattle.std.specs.Prelude.{◌≡◌, ◌%◌};
ghost use Rattle.types.specs.Causes.{cause_number, cause_of};
ghost use Rattle.fast_frames.specs.Rows.{row, bus_bytes, bus_row, is_framed, disabled_row, row_of, bare_cpu, bus_frame_of, frame_of};

use cpu::Cpu;
use fast_plans::View;
use frames::Frame;
use numbers::RawCall;

// An entry: the bytes of its frame, all of whose fields are guarded, its vector and the cycles that it answers.
#[derive(Clone, Copy)]
pub struct FrameRow {
    pub bytes: u32,
    pub vector: u32,
    pub answer: u32,
}

fn row(bytes: u32, vector: u32, answer: u32) -> FrameRow
    ensures { result ≡ row bytes vector answer }
{
    FrameRow {
        bytes,
        vector,
        answer,
    }
}

// The bytes of a bus error's frame; none where it is written raw.
#[tactic(auto, unfolding(crate::specs::Rows::bus_bytes))]
fn bus_bytes(kind: u8) -> Option<u32>
    ensures { result ≡ bus_bytes kind }
{
    if types::is_pre_68020(kind) {
        None
    } else if types::is_060(kind) {
        Some(16)
    } else if types::is_040(kind) {
        Some(60)
    } else {
        Some(92)
    }
}

// A bus error leaves 0 where the record keeps a function code, also where none stands in: a record with another number there goes the plain way.
#[tactic(auto, unfolding(crate::specs::Rows::bus_row))]
fn bus_row(kind: u8, code: u8) -> Option<FrameRow>
    ensures { result ≡ bus_row kind code }
{
    if code != 0 {
        return None;
    }
    Some(row(bus_bytes(kind)?, types::BUS_ERROR, 50))
}

// Whether the entry of a call by number has its frame as data.
pub fn is_framed(number: u32) -> bool
    ensures { result ≡ is_framed number }
{
    number == 9 || number == 11
}

// A floating-point unit that is disabled, on the 68060 alone.
#[tactic(auto, unfolding(crate::specs::Rows::disabled_row))]
fn disabled_row(kind: u8) -> Option<FrameRow>
    ensures { result ≡ disabled_row kind }
{
    if types::is_060(kind) {
        Some(row(16, types::LINE_1111, 34))
    } else {
        None
    }
}

// The entry of a call by number: a further entry is a row here and a frame below.
#[tactic(auto, unfolding(crate::specs::Rows::row_of))]
pub(crate) fn row_of(number: u32, kind: u8, code: u8) -> Option<FrameRow>
    ensures { result ≡ row_of number kind code }
{
    match number {
        9 => bus_row(kind, code),
        11 => disabled_row(kind),
        _ => None,
    }
}

fn cause(n: u32) -> u8
    ensures { result ≡ cause_number (cause_of (n % 256)) }
{
    types::cause_number(types::cause_of((n % 256) as u8))
}

// A record with what a frame is made of, and fresh else: nothing else of a record is read, so nothing else is copied.
#[tactic(auto, unfolding(crate::specs::Rows::bare_cpu, cpu::specs::Setters::with_ppc, cpu::specs::Setters::with_pending_fault_wdata, cpu::specs::Groups::with_flags))]
fn bare(x: View, wdata: u32) -> Cpu
    ensures { result ≡ bare_cpu x wdata }
{
    let mut c = cpu::fresh::fresh(x.kind);
    c.flow.ppc = x.ppc;
    c.flags = x.flags;
    c.fault.pending_fault_wdata = wdata;
    c
}

#[tactic(auto, unfolding(crate::specs::Rows::bus_frame_of))]
fn bus_frame(x: View, wdata: u32, call: RawCall) -> Frame
    ensures { result ≡ bus_frame_of x wdata call }
{
    frames::bus_frame(
        bare(x, wdata),
        call.a,
        call.b != 0,
        call.c != 0,
        call.d,
        cause(call.e),
    )
}

// The frame of a call by number.
#[tactic(auto, unfolding(crate::specs::Rows::frame_of))]
pub(crate) fn frame_of(x: View, wdata: u32, call: RawCall) -> Frame
    ensures { result ≡ frame_of x wdata call }
{
    if call.number == 9 {
        bus_frame(x, wdata, call)
    } else {
        formats::disabled_frame(status::compose(x.flags) as u32, x.ppc, 0x402C, 0, x.ppc)
    }
}
