// The chain hoist.
#![tactic(auto)]

pub mod hoist;
pub mod inverter;
