//! Tables that were exported as IPFIX, read back into their rows and added up.
#![tactic(auto)]

mod borders;
mod field_reading;
mod judging;
mod merge_fault;
mod merging;
mod row_fault;
mod row_intervals;
mod row_reading;
mod row_sink;
mod told_values;

pub use merge_fault::MergeFault;
pub use merging::Merging;
pub use row_fault::RowFault;
pub use row_reading::read_row;
