//! How many sessions of connections are at work.

ghost use Rattle.std.specs.Prelude.{◌≡◌, ◌-◌, ◌<◌, ◌≤◌, None};
ghost use Rattle.recording_connections.specs.Rooms.{IsBegun, IsSentAway};

use crate::shared_counts::{RefusedPeers, one_more_peer};
use std::net::SocketAddr;

/// How many sessions of connections are at work, and the peers that were turned away while all were.
#[derive(Debug, PartialEq, Eq, Drop)]
pub struct SessionRoom {
    /// How many are at work at once, at most.
    pub most: usize,
    pub at_work: usize,
    /// The peers that were turned away and are not reported yet.
    pub turned_away: Option<RefusedPeers>,
}

impl SessionRoom {
    /// Room for so many sessions. None is at work.
    pub fn new(most: usize) -> Self
        ensures { result ≡ record { most = most; at_work = 0; turned_away = None } }
    {
        SessionRoom {
            most,
            at_work: 0,
            turned_away: None,
        }
    }

    /// Begins a session of a peer, and answers whether it does: while all are at work the peer is turned away, and counted.
    pub fn begin(&mut self, peer: SocketAddr) -> bool
        ensures begun { self.old.at_work < self.old.most → IsBegun self.old result self.new }
        ensures full { self.old.most ≤ self.old.at_work → IsSentAway self.old peer result self.new }
    {
        let begins = self.at_work < self.most;
        if begins {
            self.at_work += 1;
        } else {
            self.turned_away = Some(one_more_peer(self.turned_away, peer));
        }
        begins
    }

    /// A session has ended.
    pub fn end(&mut self)
        ensures { self.new ≡ record self.old { at_work = self.old.at_work - 1 } }
    {
        self.at_work = self.at_work.saturating_sub(1);
    }

    /// The peers that were turned away since this was asked last, which are told now.
    pub fn take_turned_away(&mut self) -> Option<RefusedPeers>
        ensures all { result ≡ self.old.turned_away }
        ensures none_left { self.new ≡ record self.old { turned_away = None } }
    {
        self.turned_away.take()
    }
}
