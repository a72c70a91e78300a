// Demand 3 in a run on any rolls: what is delivered are prefixes of the chunks. Definitions in specs/, proofs in
// proofs/; no code.
#![tactic(auto)]
