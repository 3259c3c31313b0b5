//! Prefixes of addresses, and which peers may send by them.
#![tactic(auto)]

mod address_bits;
mod mapped_addresses;
mod peer_filter;
mod prefix;

pub use address_bits::AddressBits;
pub use mapped_addresses::peer_address;
pub use peer_filter::PeerFilter;
pub use prefix::{Prefix, PrefixFault};
