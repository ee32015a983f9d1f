// The oil cylinder.
#![tactic(auto)]

pub mod cylinder;
pub mod scale;
