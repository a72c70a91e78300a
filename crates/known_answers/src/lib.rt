// The proof sheet: its rows as one table, under one theorem. Statement in specs/, proof in proofs/; no code.
#![tactic(auto)]
