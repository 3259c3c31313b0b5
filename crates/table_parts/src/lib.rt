//! The parts of a table, each with its receipt: which receipts there are, and what they say of the tables.
#![tactic(auto)]

mod files;
mod parts;
mod plan;
mod tables;

pub use files::PartFiles;
pub use parts::{NotRead, read_parts};
pub use plan::{PlanAtHand, has_plan};
pub use tables::{PartTable, is_its_table, table_of_input, tables_of};
