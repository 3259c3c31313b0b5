//! The lines of the rates at which packets were sampled, and whether sampling leaves a run spotless.
#![tactic(auto)]

mod rates;
mod spotless;

pub use rates::write_sampling;
pub use spotless::is_sampling_spotless;
