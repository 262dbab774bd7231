// What is claimed, on one page: `specs/Claims` has each result that a reader cares about, stated in full and proved by citation
// alone. Mathematics only, in `specs`. It may use every crate of theorems. Nothing uses it.
#![tactic(auto)]
