//! The order of a peer's datagrams: UDP may bring them in another order than they were sent in, and twice.
//! Sequence numbers, which count data records (RFC 7011, section 3.1), say which one is due. One that is
//! ahead of that waits for a while, and one that came already is dropped.
#![tactic(auto)]

mod data_sets;
mod datagram;
mod datagram_counts;
mod last;
pub mod laws;
mod least;
mod leaving;
mod limits;
mod lists;
mod numbering;
mod offer;
mod offering;
mod order_counts;
mod window;
mod writing;

pub use datagram::Datagram;
pub use datagram_counts::DatagramCounts;
pub use limits::{MOST_LAST, MOST_WAITING, ROOM};
pub use numbering::{FARTHEST, Numbering};
pub use offer::Offer;
pub use order_counts::OrderCounts;
pub use window::Window;
