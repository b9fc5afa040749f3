// The marked examples of document 01: one table and one theorem, see specs/ and proofs/.
#![tactic(auto)]
