// The sizes with which a run of `run_transfer` ends as the source's does: specs and proofs only.
#![tactic(auto)]
