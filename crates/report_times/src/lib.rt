//! The lines of what is told of the times of a session's flows.
#![tactic(auto)]

mod starts;
mod times;
mod untimed;

pub use times::write_times;
