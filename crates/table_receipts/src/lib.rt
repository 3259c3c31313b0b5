//! Receipts of tables: what a table was made of, as a text in JSON (RFC 8259).
#![tactic(auto)]

mod fault;
mod looking_up;
mod part_reading;
mod parts;
mod reading;
mod receipt;
mod writing;

pub use fault::ReceiptFault;
pub use reading::read_receipt;
pub use receipt::{
    CounterSum, DomainReceipt, ExporterReceipt, FileReceipt, InputReceipt, MergedInterval,
    MergedInto, Receipt, RecordCounts, TableFormat, TableReceipt,
};
pub use writing::write_receipt;
