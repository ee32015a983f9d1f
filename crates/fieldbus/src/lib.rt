// The line between a master and a cabinet: AL states, the watch over the frames, and what a frame carries.
#![tactic(auto)]

pub mod al;
pub mod frame;
pub mod layout;
pub mod watch;
