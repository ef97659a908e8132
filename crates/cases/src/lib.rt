// The cases of document 01 that are proved over the rules: all of this crate stands in specs/ and proofs/.
#![tactic(auto)]
