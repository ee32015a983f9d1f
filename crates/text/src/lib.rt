// What a number and a byte string of a scenario is.
#![tactic(auto)]

pub mod bytes;
pub mod fault;
pub mod numbers;
