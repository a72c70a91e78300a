// The ends over bytes do as the ends over numbers, marks and chunks: definitions in specs/, laws in proofs/; no code.
#![tactic(auto)]
