// Rule 3 at the public calls: entries by `perform`, and the return and the walk that the public contracts cite. Mathematics only, in specs/ and proofs/.
// It uses `entered`, `unwind` and `instances`; `manual`, `printed` and `claims` use it.
#![tactic(auto)]
