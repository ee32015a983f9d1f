// Scenarios: what a line of the bench part says.
#![tactic(auto)]

pub mod directive;
mod keyword;
mod make;
