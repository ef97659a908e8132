// How many tasks a tree of tasks has and will have: all of this crate stands in specs/.
#![tactic(auto)]
