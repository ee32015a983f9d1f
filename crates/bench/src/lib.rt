// The bench part of a scenario: drives are declared and operated one by one, and each line of the log shows a drive.
#![tactic(auto)]

mod log;
pub mod run;
