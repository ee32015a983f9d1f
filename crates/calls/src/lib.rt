// The cabinet part of a scenario: what a line of it says.
#![tactic(auto)]

pub mod call;
pub mod directive;
mod keyword;
mod number;
