//! The command that compares a table with its receipt.
#![tactic(auto)]

mod comparing;
mod maps;
mod names;
mod telling;
mod verify;

pub use names::table_of_receipt;
pub use verify::{VerifyJob, run_verify};
