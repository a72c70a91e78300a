// Demand 3 of `run_transfer`: specs and proofs only.
#![tactic(auto)]
