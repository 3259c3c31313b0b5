//! Rounds of taking datagrams.

use super::endings::{FLOW, only_from};
use super::places::{PlaceInPeriods, SmallPlace};
use recording_connections::SharedCounts;
use recording_datagrams::{DatagramTaker, record_datagrams};
use recording_files::ScriptClock;
use recording_lines::WholeLines;
use recording_peers::{NoDatagram, PeerLimits, Peers, ScriptDatagrams, ScriptedDatagram};
use std::alloc::{AllocError, Global};
use std::hash::RandomState;
use std::net::{IpAddr, Ipv4Addr, SocketAddr};
use std::num::NonZeroUsize;
use std::test::*;
use worked_examples::{FailingWriter, message_of_flows};

fn peer(number: u8) -> SocketAddr {
    SocketAddr::new(IpAddr::V4(Ipv4Addr::new(192, 0, 2, number)), 4739)
}

// A failure, and then a datagram of each of these peers.
fn source_of(alloc: Global, numbers: &[u8]) -> Result<ScriptDatagrams, AllocError> {
    let mut script = Vec::new(alloc);
    script.push(Err(NoDatagram::Failed))?;
    for number in numbers {
        script.push(Ok(ScriptedDatagram {
            peer: peer(*number),
            octets: message_of_flows(alloc, 0, 1, &[FLOW])?,
        }))?;
    }
    Ok(ScriptDatagrams::new(script))
}

// A failure, two peers, one of which sends twice, and a tick: each datagram takes the room of its octets once.
#[test]
fn each_datagram_is_taken_once(rt: HostRuntime) -> Result<(), Fail> {
    let alloc: Global = rt.alloc();
    let mut source = source_of(alloc, &[1, 2, 1])?;
    let mut out = FailingWriter::new(alloc, 1000, 1000);
    let filter = only_from(alloc, "192.0.2.0/24")?;
    let mut taker = DatagramTaker {
        alloc,
        peers: Peers::new(
            alloc,
            NonZeroUsize::new(2).unwrap(),
            RandomState::new(&rt)?,
            PeerLimits {
                reorder: 0,
                templates: 16384,
            },
        )?,
        place: PlaceInPeriods {
            place: SmallPlace { room: 1000 },
            clock: ScriptClock::new(Vec::new(alloc)),
        },
        filter: &filter,
        idle: 10,
        second: 0,
        unserved: SharedCounts::new(),
        out: WholeLines::new(&mut out),
    };
    let mut buffer = [0; 200];
    record_datagrams(&rt, None, &mut source, &mut buffer, &mut taker, 5)?;
    let length = message_of_flows(alloc, 0, 1, &[FLOW])?.len();
    let left = |number: u8| match taker.peers.kept.peek(&peer(number)) {
        Some(kept) => kept.files.room,
        None => 0,
    };
    let one = 1000_usize.saturating_sub(length);
    assert_eq!(rt; (left(1), left(2)), (one.saturating_sub(length), one));
    assert_eq!(rt; taker.unserved.not_accepted, 1);
    Ok(())
}
