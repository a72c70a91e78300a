// Demand 3 in a run: the ends of a run are those of a list of calls. Definitions in specs/, proofs in proofs/; no code.
#![tactic(auto)]
