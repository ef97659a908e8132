// The abstract machine behind demand 3: all of this crate stands in specs/.
#![tactic(auto)]
