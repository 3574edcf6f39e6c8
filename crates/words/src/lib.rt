// The vocabulary of the definitions has no code: see specs/ and proofs/.
#![tactic(auto)]
