//! Keys whose values are numbers of maps: the number of the longest prefix that has a record's address.
#![tactic(auto)]

mod map_key;
mod maps;

pub use map_key::{AddressElement, MapKey};
pub use maps::{Maps, append_numbers, remove};
