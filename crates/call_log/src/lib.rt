// The lines of a call to one cabinet, or to two with different delays.
#![tactic(auto)]

pub mod call_lines;
