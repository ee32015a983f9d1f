// The gate cabinet: making, AL requests, cycles, and questions. Nothing here allocates.
#![tactic(auto)]

pub mod cabinet;
pub mod cycle;
pub mod request;
mod step;
mod table;
