// A scenario followed line by line: first on the bench, then on one cabinet or on two with different delays.
#![tactic(auto)]

mod closing;
mod side;
pub mod stage;
