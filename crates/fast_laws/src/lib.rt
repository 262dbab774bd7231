// The theorems of the fast way: what `Patch` makes of a record (`Patched`), and that it is the record, the store and the log that the plain call
// leaves (`Matched`). There is no code here. It uses the definitions of `fast` and `unfaulted`; `fast_frames`, `fast_calls` and `attempts` cite it.
#![tactic(auto)]
