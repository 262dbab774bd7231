// Rule 3 on what a session prints, from bytes to bytes: mathematics only, in `specs` and `proofs`. After lines that meet the premises, `walk` of the
// depth prints the rows of the book, and as many `ret`s print its addresses, statuses and A7s. It may use the definitions of `sessions`,
// `lines` and `prints`, `rule3`, and what that uses. `claims` uses it.
#![tactic(auto)]
