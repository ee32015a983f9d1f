// The cabinet part of the log: what a call answers, and how the cabinet stands then.
#![tactic(auto)]

pub mod answer;
pub mod line;
pub mod standing;
