//! Many peers that send datagrams into one port, each recorded by itself: a transport session over UDP is a
//! peer's address and port (RFC 7011, section 10.3). Each session puts its datagrams into order before it
//! records them.
#![tactic(auto)]

mod datagram_source;
mod handing_on;
mod in_turn;
pub mod laws;
mod offering;
mod outcome;
mod peer_limits;
mod peer_place;
mod peer_state;
mod peers;
mod refusals;
mod room;
mod script_datagrams;
mod taking;
mod taking_turns;
mod turn;
mod waiting;

pub use datagram_source::{Datagram, DatagramSource, NoDatagram};
pub use in_turn::InTurn;
pub use outcome::{Became, Outcome};
pub use peer_limits::PeerLimits;
pub use peer_place::PeerPlace;
pub use peer_state::PeerState;
pub use peers::Peers;
pub use refusals::Refusals;
pub use script_datagrams::{ScriptDatagrams, ScriptedDatagram};
pub use taking_turns::untold;
pub use turn::Turn;
