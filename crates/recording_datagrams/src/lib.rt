//! Recording datagrams of UDP: what is told of the peers that send them, and the thread that takes them.
#![tactic(auto)]

mod datagram_limits;
mod datagram_taker;
mod ending;
mod finishing;
pub mod laws;
mod peer_folder;
mod receiving;
mod running;
mod socket_drops;
mod system_socket;
mod taking;
mod ticking;

pub use datagram_limits::DatagramLimits;
pub use datagram_taker::DatagramTaker;
pub use ending::{EndCause, end_peer, tell_refusals};
pub use finishing::{FileQueue, QueueFinisher};
pub use peer_folder::PeerFolder;
pub use receiving::run_datagrams;
pub use running::record_datagrams;
pub use socket_drops::SocketDrops;
pub use system_socket::SystemSocket;
pub use ticking::{end_silent, go_over, tell_unserved};
