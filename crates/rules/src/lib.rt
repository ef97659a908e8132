// Document 01 as definitions: all of this crate stands in specs/ and proofs/.
#![tactic(auto)]
