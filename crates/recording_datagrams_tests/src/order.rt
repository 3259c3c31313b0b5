//! Datagrams of a peer that come in another order than they were sent in, or twice.

use super::endings::{FLOW, only_from};
use super::places::{PlaceInPeriods, SmallFiles, SmallPlace};
use network_prefixes::PeerFilter;
use recording_connections::SharedCounts;
use recording_datagrams::{DatagramTaker, record_datagrams};
use recording_files::ScriptClock;
use recording_peers::{PeerLimits, Peers, ScriptDatagrams, ScriptedDatagram};
use std::alloc::{AllocError, Global};
use std::hash::RandomState;
use std::net::{IpAddr, Ipv4Addr, SocketAddr};
use std::num::NonZeroUsize;
use std::rt::Clock;
use std::sync::Wait;
use std::test::*;
use worked_examples::{FailingWriter, message_of_flows};

const SWAPPED: &str = "collectd: session 192.0.2.1:4739: domain 1: doubled 0, reordered 1
collectd: session 192.0.2.1:4739: ended: idle
collectd: session 192.0.2.1:4739: domain 1: sequence numbers advanced by 3, records 3
";

const DOUBLED: &str = "collectd: session 192.0.2.1:4739: domain 1: doubled 1, reordered 0
collectd: session 192.0.2.1:4739: ended: idle
collectd: session 192.0.2.1:4739: domain 1: sequence numbers advanced by 3, records 3
";

const AS_THEY_CAME: &str = "collectd: session 192.0.2.1:4739: ended: idle
collectd: session 192.0.2.1:4739: domain 1: sequence numbers advanced by 3, records 4
collectd: session 192.0.2.1:4739: domain 1: lost 1 backward 2
";

const ONE_IS_LOST: &str = "collectd: session 192.0.2.1:4739: domain 1: doubled 0, reordered 1
collectd: session 192.0.2.1:4739: ended: idle
collectd: session 192.0.2.1:4739: domain 1: sequence numbers advanced by 4, records 3
collectd: session 192.0.2.1:4739: domain 1: lost 1 backward 0
";

type Taker<'a, 'w> = DatagramTaker<'a, SmallFiles, PlaceInPeriods, &'w mut FailingWriter>;

fn peer() -> SocketAddr {
    SocketAddr::new(IpAddr::V4(Ipv4Addr::new(192, 0, 2, 1)), 4739)
}

// What takes datagrams that wait for so many seconds. A period is over after so many rounds.
fn taker_of<'a, 'w>(
    rt: &HostRuntime,
    filter: &'a PeerFilter,
    reorder: u64,
    rounds: usize,
    out: &'w mut FailingWriter,
) -> Result<Taker<'a, 'w>, Fail> {
    let alloc: Global = rt.alloc();
    let mut over = vec![in alloc; false; rounds]?;
    over.push(true)?;
    Ok(DatagramTaker {
        alloc,
        peers: Peers::new(
            alloc,
            NonZeroUsize::new(1).unwrap(),
            RandomState::new(rt)?,
            PeerLimits {
                reorder,
                templates: 16384,
            },
        )?,
        place: PlaceInPeriods {
            place: SmallPlace { room: 1000 },
            clock: ScriptClock::new(over),
        },
        filter,
        idle: 10,
        second: 0,
        unserved: SharedCounts::new(),
        out,
    })
}

// Datagrams of the peer with these sequence numbers, a flow each.
fn source_of(alloc: Global, numbers: &[u32]) -> Result<ScriptDatagrams, AllocError> {
    let mut script = Vec::new(alloc);
    for number in numbers {
        script.push(Ok(ScriptedDatagram {
            peer: peer(),
            octets: message_of_flows(alloc, *number, 1, &[FLOW])?,
        }))?;
    }
    Ok(ScriptDatagrams::new(script))
}

// Takes them in the first second.
fn take<R: Clock + Wait>(
    waiting: &R,
    alloc: Global,
    numbers: &[u32],
    taker: &mut Taker,
) -> Result<(), Fail> {
    let mut source = source_of(alloc, numbers)?;
    let mut buffer = [0; 200];
    let rounds = numbers.len() as u64;
    record_datagrams(waiting, None, &mut source, &mut buffer, taker, rounds)?;
    Ok(())
}

// Whether the files of the peer have the datagrams with these numbers, in this order.
fn has_written(alloc: Global, taker: &Taker, numbers: &[u32]) -> Result<bool, Fail> {
    let mut wanted = Vec::new(alloc);
    for number in numbers {
        let octets = message_of_flows(alloc, *number, 1, &[FLOW])?;
        wanted.extend_from_slice(octets.as_slice())?;
    }
    Ok(match taker.peers.kept.peek(&peer()) {
        Some(kept) => kept.files.written.as_slice() == wanted.as_slice(),
        None => false,
    })
}

// Takes datagrams with these numbers, and ends the session: whether its files had the ones with those numbers before.
fn record_all<R: Clock + Wait>(
    waiting: &R,
    rt: &HostRuntime,
    reorder: u64,
    came: &[u32],
    written: &[u32],
    out: &mut FailingWriter,
) -> Result<bool, Fail> {
    let filter = only_from(rt.alloc(), "192.0.2.0/24")?;
    let mut taker = taker_of(rt, &filter, reorder, came.len(), out)?;
    take(waiting, rt.alloc(), came, &mut taker)?;
    let has = has_written(rt.alloc(), &taker, written)?;
    taker.go_on_to(11)?;
    Ok(has)
}

// The same, and whether the lines of the session are these.
fn is_recorded<R: Clock + Wait>(
    waiting: &R,
    rt: &HostRuntime,
    reorder: u64,
    came: &[u32],
    written: &[u32],
    lines: &str,
) -> Result<bool, Fail> {
    let mut out = FailingWriter::new(rt.alloc(), 1000, 1000);
    let has = record_all(waiting, rt, reorder, came, written, &mut out)?;
    Ok(has && out.taken.as_slice() == lines.as_bytes())
}

#[test]
fn swapped_ones_are_in_order(rt: HostRuntime) -> Result<(), Fail> {
    assert!(rt; is_recorded(&rt, &rt, 1, &[0, 2, 1], &[0, 1, 2], SWAPPED)?);
    Ok(())
}

#[test]
fn a_doubled_one_is_there_once(rt: HostRuntime) -> Result<(), Fail> {
    assert!(rt; is_recorded(&rt, &rt, 1, &[0, 1, 1, 2], &[0, 1, 2], DOUBLED)?);
    Ok(())
}

#[test]
fn with_no_seconds_all_are_as_they_came(rt: HostRuntime) -> Result<(), Fail> {
    assert!(rt; is_recorded(&rt, &rt, 0, &[0, 2, 1, 1], &[0, 2, 1, 1], AS_THEY_CAME)?);
    Ok(())
}

// Two are ahead of one that never comes.
#[test]
fn those_that_wait_are_recorded_at_the_end(rt: HostRuntime) -> Result<(), Fail> {
    assert!(rt; is_recorded(&rt, &rt, 60, &[0, 3, 2], &[0], ONE_IS_LOST)?);
    Ok(())
}

#[test]
fn one_that_is_ahead_waits_for_its_seconds(rt: HostRuntime) -> Result<(), Fail> {
    let alloc: Global = rt.alloc();
    let mut out = FailingWriter::new(alloc, 1000, 1000);
    let filter = only_from(alloc, "192.0.2.0/24")?;
    let mut taker = taker_of(&rt, &filter, 1, 2, &mut out)?;
    take(&rt, alloc, &[0, 2], &mut taker)?;
    taker.go_on_to(1)?;
    assert!(rt; has_written(alloc, &taker, &[0])?);
    taker.go_on_to(2)?;
    assert!(rt; has_written(alloc, &taker, &[0, 2])?);
    Ok(())
}

// Tells what was counted in a period, and ends the session.
fn tell_twice<R: Clock + Wait>(
    waiting: &R,
    rt: &HostRuntime,
    out: &mut FailingWriter,
) -> Result<(), Fail> {
    let filter = only_from(rt.alloc(), "192.0.2.0/24")?;
    let mut taker = taker_of(rt, &filter, 1, 4, out)?;
    take(waiting, rt.alloc(), &[0, 1, 1, 2], &mut taker)?;
    taker.keep_to_periods(0)?;
    taker.go_on_to(11)?;
    Ok(())
}

#[test]
fn what_was_told_is_told_no_more(rt: HostRuntime) -> Result<(), Fail> {
    let mut out = FailingWriter::new(rt.alloc(), 1000, 1000);
    tell_twice(&rt, &rt, &mut out)?;
    assert!(rt; out.taken.as_slice() == DOUBLED.as_bytes());
    Ok(())
}
