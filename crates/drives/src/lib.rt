// Drives: what a drive is asked to carry, what it holds, why it refuses, the trait that every drive stands behind, and
// the drive of any make.
#![tactic(auto)]

pub mod drive;
pub mod held;
pub mod made;
pub mod target;
