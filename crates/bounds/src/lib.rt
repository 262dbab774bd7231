// Bounds of the functions that call each other in `access`: mathematics only, in `specs` and `proofs`. It uses `access` and everything below; `promises`,
// `forms`, `manual` and `claims` use it.
#![tactic(auto)]
