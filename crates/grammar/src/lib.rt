// The grammar of a scenario's lines: words taken one after the other, and what is wrong with a line.
#![tactic(auto)]

pub mod grammar;
pub mod wrong;
