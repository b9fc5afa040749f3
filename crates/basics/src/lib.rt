// The idioms that the definitions share. There is no code here: see specs/ and proofs/.
#![tactic(auto)]
