// Demand 3 of the exports: lists of their calls from made states. Definitions in specs/, laws in proofs/; no code.
#![tactic(auto)]
