// The session tables as a state of the model: all of this crate stands in specs/ and proofs/.
#![tactic(auto)]
