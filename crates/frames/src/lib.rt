// Frames as data: the fields upward from the new A7, so that the first is pushed last; what the two error entries stack, kind by kind, with
// the status words in it. It uses `status`, `cpu` and `types`; `access` pushes these frames, and `formats` describes those of the other
// exceptions with the same fields.
#![tactic(auto)]

use cpu::Cpu;

mod codes; // status words of error frames

ghost use Rattle.std.specs.Prelude.{◌≡◌, ◌-◌, ◌%◌, ◌<◌, take};
ghost use Rattle.types.specs.Kinds.{pick};
ghost use Rattle.cpu.specs.Fields.{kind_of, ir_of};
ghost use Rattle.status.specs.Status.{get_sr};
ghost use Rattle.frames.specs.Frames.{word, long, raw_word, raw_long, framed, field_at, frame68000, frame8, frame2, frame0, frame4, frame7, frame11, write_data, address_frame, bus_frame};

// How a field is pushed: by a guarded access, by a raw one, or only counted.
#[derive(Clone, Copy, PartialEq, Eq, Debug)]
pub enum Mode {
    Guarded,
    Raw,
    Counted,
}

// By number: 1 is raw, 2 only counted, any other guarded.
impl From<u8> for Mode {
    ghost use Rattle.frames.specs.Modes.{mode_of};

    ghost from_gives = { λ n r. r ≡ mode_of n };

    #[tactic(auto, unfolding(crate::specs::Modes::mode_of))]
    fn from(number: u8) -> Self {
        match number {
            1 => Mode::Raw,
            2 => Mode::Counted,
            _ => Mode::Guarded,
        }
    }
}

#[derive(Clone, Copy)]
pub struct Field {
    pub mode: Mode,
    pub long: bool,
    pub value: u32,
}

// The first `count` fields are the frame. Memory is fixed, so it is no `Vec`; it is copied, which an `ArrayVec` is not.
#[derive(Clone, Copy)]
pub struct Frame {
    pub fields: [Field; 28],
    pub count: u8,
}

// The four makers of a field keep the lists of frames readable.
pub fn word(value: u32) -> Field
    ensures { result ≡ word value }
{
    Field {
        mode: Mode::Guarded,
        long: false,
        value,
    }
}

pub fn long(value: u32) -> Field
    ensures { result ≡ long value }
{
    Field {
        mode: Mode::Guarded,
        long: true,
        value,
    }
}

fn raw_word(value: u32) -> Field
    ensures { result ≡ raw_word value }
{
    Field {
        mode: Mode::Raw,
        long: false,
        value,
    }
}

fn raw_long(value: u32) -> Field
    ensures { result ≡ raw_long value }
{
    Field {
        mode: Mode::Raw,
        long: true,
        value,
    }
}

const GAP_WORD: Field = Field {
    mode: Mode::Counted,
    long: false,
    value: 0,
};

const GAP_LONG: Field = Field {
    mode: Mode::Counted,
    long: true,
    value: 0,
};

// A frame of these fields, the first 28 of them.
pub fn framed(fs: &[Field]) -> Frame
    ensures { result ≡ framed (take 28 fs.now) }
{
    let n = fs.len().min(28);
    let mut fields = [GAP_WORD; 28];
    fields[..n].copy_from_slice(&fs[..n]);
    Frame {
        fields,
        count: n as u8,
    }
}

// Field k; past the array an empty word, which no frame reaches.
#[tactic(auto, unfolding(crate::specs::Frames::field_at))]
pub fn field_at(f: Frame, k: u8) -> Field
    ensures { result ≡ field_at f k }
{
    if k < 28 {
        f.fields[usize::from(k)]
    } else {
        word(0)
    }
}

// 68000 bus and address error.
#[tactic(auto, unfolding(crate::specs::Frames::frame68000))]
fn frame_68000(sr: u32, ppc: u32, ir: u32, address: u32, status: u32) -> Frame
    ensures { result ≡ frame68000 sr ppc ir address status }
{
    framed(&[
        raw_long(ppc),
        raw_word(sr),
        raw_word(ir),
        raw_long(address),
        raw_word(status),
    ])
}

// Format 8: 19 fields, of which 11 are only counted.
#[tactic(auto, unfolding(crate::specs::Frames::frame8))]
fn frame_8(sr: u32, ppc: u32, format: u32) -> Frame
    ensures { result ≡ frame8 sr ppc format }
{
    framed(&[
        raw_word(sr),
        raw_long(ppc),
        raw_word(format),
        raw_word(0),
        raw_long(0),
        GAP_WORD,
        raw_word(0),
        GAP_WORD,
        raw_word(0),
        GAP_WORD,
        raw_word(0),
        GAP_LONG,
        GAP_LONG,
        GAP_LONG,
        GAP_LONG,
        GAP_LONG,
        GAP_LONG,
        GAP_LONG,
        GAP_LONG,
    ])
}

// Format 2 of an address error.
#[tactic(auto, unfolding(crate::specs::Frames::frame2))]
fn frame_2(sr: u32, ppc: u32, address: u32) -> Frame
    ensures { result ≡ frame2 sr ppc address }
{
    framed(&[
        raw_word(sr),
        raw_long(ppc),
        raw_word(0x200C),
        raw_long(address),
    ])
}

// Format 0 of an address error.
#[tactic(auto, unfolding(crate::specs::Frames::frame0))]
fn frame_0(sr: u32, ppc: u32) -> Frame
    ensures { result ≡ frame0 sr ppc }
{
    framed(&[raw_word(sr), raw_long(ppc), raw_word(0x000C)])
}

// Format 4.
#[tactic(auto, unfolding(crate::specs::Frames::frame4))]
fn frame_4(sr: u32, ppc: u32, address: u32, fslw: u32) -> Frame
    ensures { result ≡ frame4 sr ppc address fslw }
{
    framed(&[word(sr), long(ppc), word(0x4008), long(address), long(fslw)])
}

// Format 7.
#[tactic(auto, unfolding(crate::specs::Frames::frame7))]
fn frame_7(sr: u32, ppc: u32, address: u32, ssw: u32, wb: u32, wba: u32, wbd: u32) -> Frame
    ensures { result ≡ frame7 sr ppc address ssw wb wba wbd }
{
    framed(&[
        word(sr),
        long(ppc),
        word(0x7008),
        long(address),
        word(ssw),
        word(wb),
        word(0),
        word(0),
        long(address),
        long(wba),
        long(wbd),
        long(0),
        long(0),
        long(0),
        long(0),
        long(0),
        long(0),
        long(0),
    ])
}

// Format 11.
#[tactic(auto, unfolding(crate::specs::Frames::frame11))]
fn frame_11(sr: u32, ppc: u32, ssw: u32, fault: u32, output: u32, stage: u32) -> Frame
    ensures { result ≡ frame11 sr ppc ssw fault output stage }
{
    framed(&[
        word(sr),
        long(ppc),
        word(0xB008),
        word(0),
        word(ssw),
        word(0),
        word(0),
        long(fault),
        long(0),
        long(output),
        long(0),
        long(0),
        long(stage),
        long(0),
        long(0),
        word(0),
        word(0),
        word(0),
        word(0),
        long(0),
        long(0),
        long(0),
        long(0),
        long(0),
        long(0),
        long(0),
        long(0),
        long(0),
    ])
}

fn status_of(c: Cpu) -> u32
    ensures { result ≡ get_sr c }
{
    status::get_sr(c) as u32
}

fn ir_word(c: Cpu) -> u32
    ensures { result ≡ ir_of c % 0x10000 }
{
    cpu::fields::ir(c) % 0x10000
}

// The data of a faulted write.
#[tactic(auto, unfolding(crate::specs::Frames::write_data))]
fn write_data(c: Cpu, write: bool) -> u32
    ensures { result ≡ write_data c write }
{
    if write {
        cpu::fields::pending_fault_wdata(c)
    } else {
        0
    }
}

// What `exception_address_error` stacks.
#[tactic(auto, unfolding(crate::specs::Frames::address_frame))]
pub fn address_frame(c: Cpu, address: u32, write: bool, instruction: bool) -> Frame
    ensures { result ≡ address_frame c address write instruction }
{
    let k = cpu::fields::kind(c);
    let sr = status_of(c);
    let ppc = cpu::fields::ppc(c);
    if k == types::M68000 {
        let fc = codes::state_code(c, instruction);
        let status = codes::fault_word(fc, write, instruction);
        let ir = ir_word(c);
        return frame_68000(sr, ppc, ir, address, status);
    }
    if types::is_pre_68020(k) {
        return frame_8(sr, ppc, 0x800C);
    }
    if types::is_040(k) {
        return frame_2(sr, ppc, address - address % 2);
    }
    frame_0(sr, ppc)
}

// What `exception_bus_error` stacks.
#[tactic(auto, unfolding(crate::specs::Frames::bus_frame))]
pub fn bus_frame(
    c: Cpu,
    address: u32,
    write: bool,
    instruction: bool,
    size: u32,
    cause: u8,
) -> Frame
    ensures { result ≡ bus_frame c address write instruction size cause }
{
    let k = cpu::fields::kind(c);
    let sr = status_of(c);
    let ppc = cpu::fields::ppc(c);
    let fc = codes::fault_code(c, instruction);
    if k == types::M68000 {
        let status = codes::fault_word(fc, write, instruction);
        let ir = ir_word(c);
        return frame_68000(sr, ppc, ir, address, status);
    }
    if types::is_pre_68020(k) {
        return frame_8(sr, ppc, 0x8008);
    }
    if types::is_060(k) {
        let fslw = codes::fslw_060(write, instruction, size, fc, cause);
        return frame_4(sr, ppc, address, fslw);
    }
    let data = write_data(c, write);
    if types::is_040(k) {
        let ssw = codes::ssw_040(fc, write, size, cause);
        let wb = codes::wb3_status(fc, write, size);
        let wba = if write { address } else { 0 };
        return frame_7(sr, ppc, address, ssw, wb, wba, data);
    }
    let ssw = codes::ssw_020(fc, write, instruction, size);
    let fault = if instruction { 0 } else { address };
    let stage = if instruction { address } else { 0 };
    frame_11(sr, ppc, ssw, fault, data, stage)
}
