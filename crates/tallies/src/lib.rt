// The counters of the ends from the history of calls. Definitions in specs/, proofs in proofs/; no code.
#![tactic(auto)]
