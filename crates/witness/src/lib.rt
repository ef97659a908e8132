// What demand 3 speaks of and what it leaves to demand 2: all of this crate stands in specs/ and proofs/.
#![tactic(auto)]
