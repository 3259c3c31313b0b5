//! What the threads of a recording share.

ghost use Rattle.std.specs.Prelude.{◌≡◌, IfSome, Some, None};
ghost use Rattle.ipfix_session.specs.Sources.{one_more};
ghost use Rattle.recording_connections.specs.Refusals.{IsAdmitted, IsTurnedAway, MaySend, none_unserved, one_more_refused, refused_count};

use network_prefixes::PeerFilter;
use std::mem;
use std::net::SocketAddr;

/// The peers that were refused and are not reported yet.
#[derive(Clone, Copy, Debug, PartialEq, Eq)]
pub struct RefusedPeers {
    /// How many, up to `u64::MAX`.
    pub count: u64,
    pub last: SocketAddr,
}

/// The number of a session. Only the shared counts give one, one more than the last, to one session each.
#[derive(Debug, PartialEq, Eq, Drop)]
pub struct SessionNumber {
    number: u64,
}

impl SessionNumber {
    /// The number, counted from 1.
    pub fn get(&self) -> u64
        ensures { result ≡ self.now.number }
    {
        self.number
    }
}

/// What the threads share: the number of the last session, and what is to be told of peers that have none.
#[derive(Debug, PartialEq, Eq, Drop)]
pub struct SharedCounts {
    /// The number of the last session, counted from 1, up to `u64::MAX`.
    pub sessions: u64,
    pub refused: Option<RefusedPeers>,
    /// How often no connection could be accepted, as far as it is not reported yet, up to `u64::MAX`.
    pub not_accepted: u64,
}

impl SharedCounts {
    /// No session has begun, and nobody was refused.
    pub fn new() -> Self
        ensures { result ≡ none_unserved }
    {
        SharedCounts {
            sessions: 0,
            refused: None,
            not_accepted: 0,
        }
    }

    /// The number of the session that begins now.
    pub fn next_session(&mut self) -> SessionNumber
        ensures number { result.number ≡ one_more self.old.sessions }
        ensures counted { self.new.sessions ≡ result.number }
        ensures refused { self.new.refused ≡ self.old.refused }
        ensures not_accepted { self.new.not_accepted ≡ self.old.not_accepted }
    {
        self.sessions = self.sessions.saturating_add(1);
        SessionNumber {
            number: self.sessions,
        }
    }

    /// Admits a peer to a session, which has the next number; one that may not send is counted as refused.
    pub fn admit(&mut self, filter: &PeerFilter, peer: SocketAddr) -> Option<SessionNumber>
        ensures admitted { MaySend filter.now peer → IsAdmitted self.old result self.new }
        ensures refused { ¬ MaySend filter.now peer → IsTurnedAway self.old peer result self.new }
        ensures next { IfSome result (λ session. session.number ≡ one_more self.old.sessions) }
    {
        if filter.lets_in(peer.ip()) {
            Some(self.next_session())
        } else {
            self.refuse(peer);
            None
        }
    }

    /// Counts a peer that was refused.
    pub fn refuse(&mut self, peer: SocketAddr)
        ensures counted { self.new.refused ≡ Some (one_more_refused self.old.refused peer) }
        ensures sessions { self.new.sessions ≡ self.old.sessions }
        ensures not_accepted { self.new.not_accepted ≡ self.old.not_accepted }
    {
        self.refused = Some(one_more_peer(self.refused, peer));
    }

    /// The peers that were refused since this was asked last, which are told now.
    pub fn take_refused(&mut self) -> Option<RefusedPeers>
        ensures all { result ≡ self.old.refused }
        ensures none_left { self.new.refused ≡ None }
        ensures sessions { self.new.sessions ≡ self.old.sessions }
        ensures not_accepted { self.new.not_accepted ≡ self.old.not_accepted }
    {
        self.refused.take()
    }

    /// Counts that no connection could be accepted.
    pub fn count_not_accepted(&mut self)
        ensures counted { self.new.not_accepted ≡ one_more self.old.not_accepted }
        ensures sessions { self.new.sessions ≡ self.old.sessions }
        ensures refused { self.new.refused ≡ self.old.refused }
    {
        self.not_accepted = self.not_accepted.saturating_add(1);
    }

    /// How often no connection could be accepted since this was asked last, which is told now.
    pub fn take_not_accepted(&mut self) -> u64
        ensures all { result ≡ self.old.not_accepted }
        ensures none_left { self.new.not_accepted ≡ 0 }
        ensures sessions { self.new.sessions ≡ self.old.sessions }
        ensures refused { self.new.refused ≡ self.old.refused }
    {
        mem::take(&mut self.not_accepted)
    }
}

// One more, which is the last.
pub(crate) fn one_more_peer(refused: Option<RefusedPeers>, peer: SocketAddr) -> RefusedPeers
    ensures { result ≡ one_more_refused refused peer }
{
    RefusedPeers {
        count: count_of(refused).saturating_add(1),
        last: peer,
    }
}

fn count_of(refused: Option<RefusedPeers>) -> u64
    ensures { result ≡ refused_count refused }
{
    match refused {
        Some(refused) => refused.count,
        None => 0,
    }
}
