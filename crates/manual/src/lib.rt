// The proof from Motorola's manuals: exception processing as the manuals define it, a table of where this code differs, and the theorem
// that a direct entry that starts sound and whose accesses are served differs nowhere else; the triggers and the return likewise. Mathematics only, in
// specs/ and proofs/. It uses `rule3`, `entered`, `forms` and `instances`; `claims` uses it.
#![tactic(auto)]
