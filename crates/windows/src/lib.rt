// Guards over any drive, and windows, which are limits as a guard.
#![tactic(auto)]

pub mod guard;
pub mod window;
