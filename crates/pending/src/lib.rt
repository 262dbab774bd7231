// What asks for an exception between two instructions: a trace, and an interrupt level that exceeds the mask; and what an interrupt costs.
// It uses `cpu` and `types` and stores to the record's fields, as `cpu` does; `leaves`, `refusals`, `steps`, `interrupts`, `answers` and
// `calls` use it.
#![tactic(auto)]

pub mod interrupts; // levels: set, and taken or not
pub mod trace; // whether an instruction asks for a trace exception
