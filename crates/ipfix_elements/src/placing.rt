//! Octets that are put to a place in room that is there already: as they are, decimal numbers, IPv4 addresses.

mod decimal;
mod ipv4;
mod octets;

pub use decimal::{MOST_DIGITS, place_decimal};
pub use ipv4::{MOST_ADDRESS_OCTETS, place_ipv4};
pub use octets::place;
