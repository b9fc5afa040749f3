// Replay, cycle by cycle: definitions and theorems only, see specs/ and proofs/.
#![tactic(auto)]
