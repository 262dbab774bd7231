// A call as numbers, as it crosses the C boundary, and a flag as a number. It uses `types` for a definition; `boundary`, which says which call each
// number is, and all that takes or gives calls or flags as numbers use it: the fast way stands beside the calls, not above them.
#![tactic(auto)]

// The number of a call, and its arguments in the order of the case format, as C gives them.
#[repr(C)]
#[derive(Clone, Copy)]
pub struct RawCall {
    pub number: u32,
    pub a: u32,
    pub b: u32,
    pub c: u32,
    pub d: u32,
    pub e: u32,
}
