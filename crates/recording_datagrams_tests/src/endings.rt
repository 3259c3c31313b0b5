//! What is told of peers that send datagrams.

use super::places::{PlaceInPeriods, SmallFiles, SmallPlace};
use network_prefixes::{PeerFilter, Prefix};
use recording_connections::SharedCounts;
use recording_datagrams::DatagramTaker;
use recording_files::ScriptClock;
use recording_peers::{Datagram, PeerLimits, Peers};
use std::alloc::Global;
use std::hash::RandomState;
use std::net::{IpAddr, Ipv4Addr, SocketAddr};
use std::num::NonZeroUsize;
use std::test::*;
use worked_examples::faults::VERSION_9;
use worked_examples::{FailingWriter, Flow, message_of_flows};

pub const FLOW: Flow = Flow {
    start: 1000,
    end: 2000,
    octets: 1500,
};

const LINES: &str = "collectd: session 192.0.2.1:4739: ended: longest silent
collectd: session 192.0.2.1:4739: domain 1: sequence numbers advanced by 1, records 1
collectd: session 192.0.2.2:4739: refused 2 datagrams, last fault 1 Version
collectd: session 192.0.2.2:4739: domain 1: sequence numbers advanced by 1, records 1
collectd: session 192.0.2.2:4739: fault 19 NotWritten
collectd: session 192.0.2.3:4739: refused 1 datagrams, last fault 1 Version
collectd: refused 1 datagrams, last 192.0.3.1:4739
collectd: session 192.0.2.3:4739: ended: idle
collectd: session 192.0.2.3:4739: domain 1: sequence numbers advanced by 1, records 1
";

/// Peers of a prefix alone may send.
pub fn only_from(alloc: Global, word: &str) -> Result<PeerFilter, Fail> {
    let mut prefixes = Vec::new(alloc);
    if let Ok(prefix) = Prefix::parse(word) {
        prefixes.push(prefix)?;
    }
    Ok(PeerFilter { prefixes })
}

// The peers of 192.0.2.0/24 may send, two of which are kept.
fn tell_all(rt: &HostRuntime, out: &mut FailingWriter) -> Result<(), Fail> {
    let alloc: Global = rt.alloc();
    let message = message_of_flows(alloc, 0, 1, &[FLOW])?;
    let filter = only_from(alloc, "192.0.2.0/24")?;
    let mut taker: DatagramTaker<SmallFiles, PlaceInPeriods, &mut FailingWriter> = DatagramTaker {
        alloc,
        peers: Peers::new(
            alloc,
            NonZeroUsize::new(2).unwrap(),
            RandomState::new(rt)?,
            PeerLimits {
                reorder: 0,
                templates: 16384,
            },
        )?,
        place: PlaceInPeriods {
            place: SmallPlace { room: 100 },
            clock: ScriptClock::new(Vec::new(alloc)),
        },
        filter: &filter,
        idle: 0,
        second: 0,
        unserved: SharedCounts::new(),
        out,
    };
    // (the second flow of a peer finds no room)
    for (network, number, is_flow, now) in [
        (2, 1, true, 0),
        (2, 2, true, 1),
        (3, 1, true, 1),
        (2, 2, false, 1),
        (2, 2, false, 1),
        (2, 3, true, 2),
        (2, 2, true, 3),
        (2, 3, false, 3),
    ] {
        let octets = if is_flow {
            message.as_slice()
        } else {
            VERSION_9
        };
        let received = Datagram {
            length: octets.len(),
            peer: SocketAddr::new(IpAddr::V4(Ipv4Addr::new(192, 0, network, number)), 4739),
        };
        taker.take(Ok(received), octets, now)?;
    }
    taker.go_on_to(3)?;
    taker.go_on_to(4)?;
    Ok(())
}

#[test]
fn lines_of_peers(rt: HostRuntime) -> Result<(), Fail> {
    let mut out = FailingWriter::new(rt.alloc(), 1000, 1000);
    tell_all(&rt, &mut out)?;
    assert!(rt; out.taken.as_slice() == LINES.as_bytes());
    Ok(())
}
