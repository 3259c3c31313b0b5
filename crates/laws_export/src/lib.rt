//! The law that ties the export of tables to their reading: what was exported as IPFIX is read back as
//! the rows of the table.
#![tactic(auto)]

mod laws;

pub use laws::{rows_are_counted_again, rows_are_read_back, tables_are_read_back};
