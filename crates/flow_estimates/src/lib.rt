//! Estimates of what was counted where an exporter selects some packets of many, and how many records have which rate.
#![tactic(auto)]

mod estimates;
pub mod laws;
mod rate_notes;
mod report;

pub use estimates::{Estimate, Estimates, append_estimates, has_too_large};
pub use rate_notes::{MOST_RATES, RateCount, RateNotes};
pub use report::{SamplingReport, no_report, report_of};
