//! Receipts of the parts of a table: whether they may be merged, and what the merged receipt says.
#![tactic(auto)]

mod counts;
mod merging;
mod once;
mod part_fault;
mod parts;

pub use merging::{Judgement, MergedParts, judge_parts};
pub use once::first_twice;
pub use part_fault::PartFault;
pub use parts::{Allowed, Part};
