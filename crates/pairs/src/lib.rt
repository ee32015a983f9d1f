// Two banks side by side.
#![tactic(auto)]

pub mod pair;
