//! Dumping sessions of IPFIX (RFC 7011): a line for each data record, as text or as an object of JSON.
#![tactic(auto)]

mod dumping;
mod fault;
mod front;
mod label;
mod labels;
pub mod laws;
mod line;
mod line_octets;
mod line_sink;
mod options;
mod text;

pub use dumping::{dump, dump_with};
pub use fault::DumpFault;
pub use options::{DumpOptions, Form};
