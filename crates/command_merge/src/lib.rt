//! The command that merges the exports in files: what was written is their rows added up.
#![tactic(auto)]

mod job;
mod merge;
mod not_merged;
mod reports;

pub use job::MergeJob;
pub use merge::run_merge_with;
pub use not_merged::{FileFault, NotMerged};
pub use reports::{write_file_opened, write_file_start, write_merged, write_not_merged};
