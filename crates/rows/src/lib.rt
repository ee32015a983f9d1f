// Any number of drives in a row.
#![tactic(auto)]

pub mod row;
