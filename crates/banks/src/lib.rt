// Banks: drives operated by number. One drive is a bank.
#![tactic(auto)]

pub mod bank;
pub mod single;
