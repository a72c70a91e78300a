// RFC 6298, section 5, of a run on the edition clock: specs and proofs only.
#![tactic(auto)]
