// Along every run: what is outstanding has a timer, and a run that ended is completed or met a ceiling. Definitions in
// specs/, proofs in proofs/; no code.
#![tactic(auto)]
