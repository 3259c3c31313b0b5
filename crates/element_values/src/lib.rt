//! The values of fields, by the kinds that files of elements name (RFC 7011, section 6.1), as text and as JSON.
#![tactic(auto)]

mod instants;
mod json;
mod numbers;
mod strings;
mod text;

pub use instants::{read_micros, read_nanos};
pub use json::write_json_value;
pub use text::write_value;
