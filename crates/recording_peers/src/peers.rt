//! The peers that are kept.

ghost use Rattle.std.specs.Prelude.{◌≡◌, ◌<◌, ◌==◌, [], Some, None, length, IfOk, IfSome};
ghost use Rattle.std.specs.NonZero.{non_zero_usize_get};
ghost use Rattle.lru.specs.LruCache.{last_entry};
ghost use Rattle.recording_peers.specs.Steps.{KeepsLimits, KeepsNone, LastIsHeard, PeersGoOn, PeersRecord};
ghost use Rattle.recording_peers.specs.Table.{without_last};

use crate::in_turn::InTurn;
use crate::outcome::Outcome;
use crate::peer_limits::PeerLimits;
use crate::peer_place::PeerPlace;
use crate::peer_state::PeerState;
use crate::turn::Turn;
use lru::LruCache;
use recording_files::FileSeries;
use std::alloc::{AllocError, Global};
use std::hash::RandomState;
use std::net::SocketAddr;
use std::num::NonZeroUsize;

/// The peers whose sessions are kept, in the order of their last datagrams, the latest first.
#[derive(Drop)]
pub struct Peers<F> {
    /// The session of each, under its address and port.
    pub kept: LruCache<SocketAddr, PeerState<F>, RandomState>,
    /// The limits of each session.
    pub limits: PeerLimits,
}

impl<F: FileSeries + Drop> Peers<F> {
    /// No peers, and room for `most`, each with a session of these limits. The addresses are hashed with random keys, since
    /// anybody may choose them.
    pub fn new(
        alloc: Global,
        most: NonZeroUsize,
        keys: RandomState,
        limits: PeerLimits,
    ) -> Result<Self, AllocError>
        ensures kept { IfOk result (KeepsNone (non_zero_usize_get most)) }
        ensures limits { IfOk result (λ peers. peers.limits ≡ limits) }
    {
        let kept = LruCache::with_hasher(alloc, most, keys)?;
        Ok(Peers { kept, limits })
    }

    /// How many are kept.
    pub fn len(&self) -> usize
        ensures { result ≡ length self.now.kept.entries }
    {
        self.kept.len()
    }

    /// Whether none is.
    pub fn is_empty(&self) -> bool
        ensures { result ≡ (length self.now.kept.entries == 0) }
    {
        self.kept.is_empty()
    }

    /// Gives a datagram of a peer, which came at a time in seconds, to the peer's session; one that isn't kept begins with a
    /// datagram that leaves a template in force, with files of a place. The peer is first now. Where there is no room for one more,
    /// one goes: first who has no template in force, then who had no data record read, then any, and of these the one that was silent
    /// for longest. Any other stays as it is.
    pub fn record<P: PeerPlace<F>>(
        &mut self,
        alloc: Global,
        place: &mut P,
        peer: SocketAddr,
        datagram: &[u8],
        second: u64,
    ) -> Outcome<F>
        ensures records { PeersRecord F.seen P.made_for peer datagram.now second result self.old self.new }
        ensures limits { KeepsLimits self.old self.new }
    {
        match self.take(alloc, peer, datagram, second) {
            Some(became) => Outcome { became, gone: None },
            None => self.record_first(alloc, place, peer, datagram, second),
        }
    }

    /// Goes on to the peer that was silent for longest, as a second has begun, and makes it first: as many
    /// calls as there are peers go over all of them, and leave their order. It has its turn
    /// ([`PeerState::take_turn`]). A session that ends at that goes out.
    pub fn go_on(&mut self, alloc: Global, second: u64, is_over: bool) -> Option<InTurn<F>>
        ensures none { result ≡ None → (self.old.kept.entries ≡ []) × (self.new ≡ self.old) }
        ensures goes_on { IfSome result (PeersGoOn F.seen second is_over self.old self.new) }
        ensures limits { KeepsLimits self.old self.new }
    {
        if self.kept.len() == 0 {
            return None;
        }
        let (peer, _) = self.kept.peek_lru()?;
        let peer = *peer;
        let Turn {
            refused,
            orders,
            resumed,
            answer,
        } = self.kept.get_mut(&peer)?.take_turn(alloc, second, is_over);
        let ended = match answer {
            Ok(()) => None,
            Err(_) => self.kept.pop(&peer),
        };
        Some(InTurn {
            peer,
            refused,
            orders,
            resumed,
            ended,
        })
    }

    /// Takes out the peer that was silent for longest, if its last datagram came before a time in seconds.
    pub fn take_silent(&mut self, since: u64) -> Option<(SocketAddr, PeerState<F>)>
        ensures none { result ≡ None → self.new ≡ self.old }
        ensures heard { result ≡ None → LastIsHeard since self.old.kept.entries }
        ensures silent { IfSome result (λ e. e.1.heard < since) }
        ensures last { IfSome result (λ e. last_entry self.old.kept.entries ≡ Some e) }
        ensures rest { IfSome result
            (λ _. self.new.kept.entries ≡ without_last self.old.kept.entries) }
        ensures limits { KeepsLimits self.old self.new }
    {
        let (_, kept) = self.kept.peek_lru()?;
        if kept.heard < since {
            self.kept.pop_lru()
        } else {
            None
        }
    }

    /// Takes out the peer that was silent for longest.
    pub fn take_out(&mut self) -> Option<(SocketAddr, PeerState<F>)>
        ensures last { result ≡ last_entry self.old.kept.entries }
        ensures others { self.new.kept.entries ≡ without_last self.old.kept.entries }
        ensures limits { KeepsLimits self.old self.new }
    {
        self.kept.pop_lru()
    }
}
