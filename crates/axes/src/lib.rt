// The axes of a cabinet: each follows the CiA 402 state machine and operates its drive of a bank.
#![tactic(auto)]

pub mod axis;
