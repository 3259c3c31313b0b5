//! The fixed parts of an IPFIX message as octets (RFC 7011): message headers, set headers, field
//! specifiers and the lengths of variable-length fields, read and written.
#![tactic(auto)]

mod fault;
mod header;
pub mod laws;
mod numbers;
mod set;
mod specifier;
mod variable_length;

pub use fault::WireFault;
pub use header::{HEADER_LENGTH, Header, read_header, write_header};
pub use set::{
    FIRST_TEMPLATE_ID, OPTIONS_TEMPLATE_SET_ID, SET_HEADER_LENGTH, SetSpan, TEMPLATE_SET_ID,
    read_set, write_set,
};
pub use specifier::{ElementId, Spec, VARIABLE_WIDTH, read_spec, write_spec};
pub use variable_length::{read_length, write_length};
