// What lies in the store after an error entry whose accesses are served: mathematics only, in `specs` and `proofs`. It uses `access` and everything
// below; `instances`, `forms`, `entered`, `rule3` and `manual` use it.
#![tactic(auto)]
