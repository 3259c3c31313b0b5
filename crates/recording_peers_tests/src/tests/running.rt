//! Peers, a place in memory, and datagrams.

use recording_files::MemoryFiles;
use recording_peers::{
    Became, Datagram, DatagramSource, Outcome, PeerLimits, PeerPlace, PeerState, Peers,
    ScriptDatagrams, ScriptedDatagram,
};
use recording_resumption::EarlierDomains;
use std::alloc::{AllocError, Global};
use std::collections::BTreeMap;
use std::hash::RandomState;
use std::net::{IpAddr, Ipv4Addr, SocketAddr};
use std::num::NonZeroUsize;
use std::test::*;

/// Files in memory for each peer, with room for so many octets.
#[derive(Drop)]
pub struct MemoryPlace {
    pub room: usize,
    pub is_busy: bool,
}

impl PeerPlace<MemoryFiles> for MemoryPlace {
    // Files in memory don't say whose they are.
    ghost made_for = { λ files peer. Unit {0} };

    fn files(&mut self, alloc: Global, _peer: SocketAddr) -> Result<MemoryFiles, AllocError> {
        Ok(MemoryFiles::new(alloc, self.room))
    }

    fn earlier(&mut self, alloc: Global, _peer: SocketAddr) -> EarlierDomains {
        BTreeMap::new(alloc)
    }

    fn is_busy(&self) -> bool {
        self.is_busy
    }

    fn give_back(&mut self, _alloc: Global, _peer: SocketAddr, _earlier: EarlierDomains) {}
}

/// The peer of this number.
pub fn peer(number: u8) -> SocketAddr {
    SocketAddr::new(IpAddr::V4(Ipv4Addr::new(192, 0, 2, number)), 4739)
}

/// A source of these datagrams, each of the peer of a number.
pub fn source_of(alloc: Global, datagrams: &[(u8, &[u8])]) -> Result<ScriptDatagrams, AllocError> {
    let mut script = Vec::new(alloc);
    for (number, octets) in datagrams {
        let mut copy = Vec::new(alloc);
        copy.extend_from_slice(octets)?;
        script.push(Ok(ScriptedDatagram {
            peer: peer(*number),
            octets: copy,
        }))?;
    }
    Ok(ScriptDatagrams::new(script))
}

/// No peers yet, and room for two, whose datagrams wait for a second.
pub fn two_peers(rt: &HostRuntime) -> Result<Peers<MemoryFiles>, Fail> {
    peers_that_wait(rt, 1)
}

/// No peers yet, and room for two, whose datagrams wait for so many seconds.
pub fn peers_that_wait(rt: &HostRuntime, seconds: u64) -> Result<Peers<MemoryFiles>, Fail> {
    let most = NonZeroUsize::new(2).unwrap();
    let limits = PeerLimits {
        reorder: seconds,
        templates: 16384,
    };
    Ok(Peers::new(rt.alloc(), most, RandomState::new(rt)?, limits)?)
}

/// What became of a datagram.
#[derive(Clone, Copy, Debug, PartialEq, Eq)]
pub enum Answer {
    Taken,
    Ended,
    NoPlace,
    NoMemory,
}

/// Records a datagram of the peer of a number at second 10, in a place with room for so many octets, and
/// answers what became of it, and who went.
pub fn record(
    alloc: Global,
    peers: &mut Peers<MemoryFiles>,
    number: u8,
    datagram: &[u8],
    room: usize,
) -> (Answer, Option<SocketAddr>) {
    let place = MemoryPlace {
        room,
        is_busy: false,
    };
    record_in(alloc, peers, place, number, datagram, 10)
}

/// The same at another second.
pub fn record_at(
    alloc: Global,
    peers: &mut Peers<MemoryFiles>,
    number: u8,
    datagram: &[u8],
    second: u64,
) -> (Answer, Option<SocketAddr>) {
    let place = MemoryPlace {
        room: 10_000,
        is_busy: false,
    };
    record_in(alloc, peers, place, number, datagram, second)
}

/// The same in a place that is busy.
pub fn record_busy(
    alloc: Global,
    peers: &mut Peers<MemoryFiles>,
    number: u8,
    datagram: &[u8],
) -> (Answer, Option<SocketAddr>) {
    let place = MemoryPlace {
        room: 1000,
        is_busy: true,
    };
    record_in(alloc, peers, place, number, datagram, 10)
}

fn record_in(
    alloc: Global,
    peers: &mut Peers<MemoryFiles>,
    mut place: MemoryPlace,
    number: u8,
    datagram: &[u8],
    second: u64,
) -> (Answer, Option<SocketAddr>) {
    let Outcome { became, gone } = peers.record(alloc, &mut place, peer(number), datagram, second);
    (answer_of(became), peer_of(gone))
}

fn answer_of(became: Became<MemoryFiles>) -> Answer {
    match became {
        Became::Taken => Answer::Taken,
        Became::Ended(_) => Answer::Ended,
        Became::NoPlace => Answer::NoPlace,
        Became::NoMemory => Answer::NoMemory,
    }
}

/// The peer of a session that went.
pub fn peer_of(gone: Option<(SocketAddr, PeerState<MemoryFiles>)>) -> Option<SocketAddr> {
    match gone {
        Some((peer, _)) => Some(peer),
        None => None,
    }
}

/// Gives the peer that was silent for longest its turn at the end of a period, and answers how many of its
/// datagrams were refused.
pub fn refused_in_turn(alloc: Global, peers: &mut Peers<MemoryFiles>) -> Option<u64> {
    match peers.go_on(alloc, 11, true) {
        Some(turn) => turn.refused.map(|refused| refused.count),
        None => None,
    }
}

/// Receives and records the datagrams of a source, and answers how many came.
pub fn receive_all(
    alloc: Global,
    source: &mut ScriptDatagrams,
    peers: &mut Peers<MemoryFiles>,
) -> usize {
    let mut place = MemoryPlace {
        room: 1000,
        is_busy: false,
    };
    let mut buffer = [0; 200];
    let mut count: usize = 0;
    for now in 0..4 {
        if let Ok(Datagram { length, peer }) = source.receive(&mut buffer) {
            peers.record(alloc, &mut place, peer, &buffer[..length], now);
            count = count.saturating_add(1);
        }
    }
    count
}

/// Whether the file of the peer of a number that isn't finished has these octets.
pub fn has(peers: &Peers<MemoryFiles>, number: u8, octets: &[u8]) -> bool {
    match peers.kept.peek(&peer(number)) {
        Some(kept) => kept.files.unfinished.as_slice() == octets,
        None => false,
    }
}

/// Gives the peer that was silent for longest its turn as a second begins, at the end of a period if it is
/// over, and answers how many datagrams were doubled and reordered in its domains.
pub fn orders_in_turn(
    alloc: Global,
    peers: &mut Peers<MemoryFiles>,
    second: u64,
    is_over: bool,
) -> (u64, u64) {
    let mut doubled: u64 = 0;
    let mut reordered: u64 = 0;
    if let Some(turn) = peers.go_on(alloc, second, is_over) {
        for counts in &turn.orders {
            doubled = doubled.saturating_add(counts.doubled);
            reordered = reordered.saturating_add(counts.reordered);
        }
    }
    (doubled, reordered)
}

/// Whether that file ends with these.
pub fn ends_with(peers: &Peers<MemoryFiles>, number: u8, octets: &[u8]) -> bool {
    match peers.kept.peek(&peer(number)) {
        Some(kept) => kept.files.unfinished.as_slice().ends_with(octets),
        None => false,
    }
}
