// What a run sends at a moment. Definitions in specs/, proofs in proofs/; no code: a step of a run calls `fire_timers`
// and `pump_sends` itself.
#![tactic(auto)]
