// Any number of windows over a drive.
#![tactic(auto)]

pub mod stack;
