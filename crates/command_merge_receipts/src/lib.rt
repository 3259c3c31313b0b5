//! Merging tables by their receipts: each recording is in the merged table once, and its receipt lists them all.
#![tactic(auto)]

mod adding;
mod job;
mod laws;
mod merging;
mod not_merged;
mod receipt;
mod reports;
mod run;
mod taking;
mod writing;

pub use job::{MergedEnd, MergedTo, PartsJob};
pub use laws::merged_in_steps;
pub use not_merged::NotMergedParts;
pub use run::run_merge_parts;
