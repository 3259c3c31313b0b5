//! What a table is written as, and the line of a fault of it.
#![tactic(auto)]

mod export_fault;
mod output;

pub use export_fault::write_export_fault;
pub use output::{Output, export};
