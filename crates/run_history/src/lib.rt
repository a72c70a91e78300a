// The counts and events of a run from the history of its calls: specs and proofs only.
#![tactic(auto)]
