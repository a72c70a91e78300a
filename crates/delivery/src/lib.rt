// Demand 3: one theorem over every list of calls to two ends. Definitions in specs/, proofs in proofs/; no code.
#![tactic(auto)]
