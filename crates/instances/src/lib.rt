// The instances of paper 01: mathematics only, in `specs` and `proofs`. It uses `calls` and `images`; `rule3`, `manual` and `claims` use it.
#![tactic(auto)]
