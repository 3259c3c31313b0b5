//! The number of an address by the longest prefix that has it, from a text of rows `PREFIX,NUMBER`.
#![tactic(auto)]

mod error;
mod flattening;
mod guide;
mod ipv4;
mod ipv6;
mod painting;
mod prefix_map;
mod reading;
mod row;
mod row_keys;
mod starts;

pub use error::{MapError, MapFault};
pub use prefix_map::PrefixMap;
pub use reading::{MAX_ROWS, read_prefix_map};
pub use row::NumberedPrefix;
