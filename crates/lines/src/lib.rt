// What a line of a scenario and a word of it is.
#![tactic(auto)]

pub mod numbered;
pub mod words;
