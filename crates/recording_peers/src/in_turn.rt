//! A peer in its turn.

use crate::peer_state::PeerState;
use crate::refusals::Refusals;
use recording_order::OrderCounts;
use recording_peer::Resumption;
use std::net::SocketAddr;

/// A peer, where all are gone over in turn.
#[derive(Drop)]
pub struct InTurn<F> {
    pub peer: SocketAddr,
    /// Its datagrams that were refused and are told now, if there are any.
    pub refused: Option<Refusals>,
    /// How many datagrams were doubled and reordered in each domain that had some, where a period is over.
    pub orders: Vec<OrderCounts>,
    /// Its domains that went on after an earlier run and are told now.
    pub resumed: Vec<Resumption>,
    /// Its session, where that ended with a fault: a datagram that waited could not be recorded, or the file
    /// could not be finished.
    pub ended: Option<PeerState<F>>,
}
