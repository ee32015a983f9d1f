// The drive profile of CiA 402: commands, states, the statusword, and an axis's row of the return image.
#![tactic(auto)]

pub mod command;
pub mod image;
pub mod state;
pub mod statusword;
