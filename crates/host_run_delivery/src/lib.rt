// Demand 3 of a run for a host, by the words that it reads. Definitions in specs/, laws in proofs/; no code.
#![tactic(auto)]
