// What accesses, frames, jumps and whole entries make of a world where nothing is refused and nothing faults, in full: mathematics only, in
// `specs`. It uses `interrupts`, `exceptions` and everything below.
#![tactic(auto)]
