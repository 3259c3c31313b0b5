//! What becomes of a datagram.

use crate::peer_state::PeerState;
use std::net::SocketAddr;

/// What became of a datagram.
#[derive(Drop)]
pub enum Became<F> {
    /// Its peer's session took it: it was recorded, it waits until it is due, it was dropped since it came
    /// already, or it was refused, and counted.
    Taken,
    /// Its peer's session ended with a fault that its recorder tells. The next datagram begins another.
    Ended(PeerState<F>),
    /// Its peer isn't kept, and it doesn't begin a session ([`begins_peer`](recording_peer::begins_peer)): it leaves no
    /// template in force. Or there is no room for one more, and the place is too busy to end another. Nothing has changed.
    NoPlace,
    /// There was no memory to read it, or to begin a session of its peer, and nothing has changed.
    NoMemory,
}

/// What a datagram led to.
#[derive(Drop)]
pub struct Outcome<F> {
    /// What became of it.
    pub became: Became<F>,
    /// The peer that went, since there was no room for one more ([`Peers::record`](crate::Peers::record)).
    pub gone: Option<(SocketAddr, PeerState<F>)>,
}
