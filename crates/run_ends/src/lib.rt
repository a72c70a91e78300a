// How a run of `run_transfer` ends, and why: specs and proofs only.
#![tactic(auto)]
