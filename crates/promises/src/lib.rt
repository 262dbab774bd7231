// What a person would ask of the public calls: mathematics only, in `specs` and `proofs`. It uses `calls` and `bounds`; `claims` uses it.
#![tactic(auto)]
