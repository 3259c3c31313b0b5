//! Information elements of IPFIX (RFC 7012) and the values of their fields: names, kinds, numbers,
//! addresses, and all of them as text and as values of JSON.
#![tactic(auto)]

mod cell;
mod element;
pub mod iana;
mod json_values;
mod kind;
pub mod laws;
mod name;
mod number;
mod placing;
mod prefix;
mod text;

pub use cell::{Cell, read_cell, write_cell_octets};
pub use element::{kind_of, name_of};
pub use json_values::{EXACT_LIMIT, append_json_cell, append_json_number};
pub use kind::{Kind, Width};
pub use name::{append_name, by_name, write_name};
pub use number::read_number;
pub use placing::{MOST_ADDRESS_OCTETS, MOST_DIGITS, place, place_decimal, place_ipv4};
pub use prefix::mask;
pub use text::{write_cell, write_value};
