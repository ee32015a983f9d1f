// What the log shows of a drive.
#![tactic(auto)]

pub mod drive;
pub mod word;
