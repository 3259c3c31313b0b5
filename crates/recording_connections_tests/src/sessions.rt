//! The lines of sessions that end in several ways.

use super::places::{NoConnections, SmallPlace};
use ipfix_session::{READ_LIMIT, ScriptSource, SessionLimits};
use network_prefixes::PeerFilter;
use recording_connections::{
    Connection, ConnectionRecorder, RecordOrder, SharedCounts, record_connection,
    record_connections,
};
use report_writing::{NOTHING_MORE, Status};
use std::alloc::Global;
use std::io;
use std::net::{IpAddr, Ipv4Addr, SocketAddr};
use std::num::NonZeroU64;
use std::sync::Mutex;
use std::test::*;
use worked_examples::faults::VERSION_9;
use worked_examples::{FailingWriter, Flow, message_of_flows, text_of};

const PLACE: SmallPlace = SmallPlace {
    has_memory: true,
    room: 10_000,
    is_finished: true,
};

const FLOW: Flow = Flow {
    start: 1000,
    end: 2000,
    octets: 1500,
};

// Limits of a connection whose templates may count so much.
fn within(templates: u64) -> SessionLimits {
    SessionLimits {
        reads: READ_LIMIT,
        templates: Some(templates),
    }
}

// Records a session of octets, whose reads fail after `fail_at`, and gives what is told.
fn told_of(
    alloc: Global,
    place: SmallPlace,
    octets: &[u8],
    fail_at: Option<usize>,
    limits: SessionLimits,
) -> Result<Vec<u8>, Fail> {
    let text = Vec::from_slice(alloc, octets)?;
    let mut connection = Connection {
        source: ScriptSource::new(text, 50, None, fail_at),
        peer: SocketAddr::new(IpAddr::V4(Ipv4Addr::new(192, 0, 2, 1)), 4739),
    };
    let mut out = FailingWriter::new(alloc, 1000, 1000);
    let number = SharedCounts::new().next_session();
    record_connection(
        alloc,
        &mut connection,
        number,
        limits,
        &place,
        NOTHING_MORE,
        &mut out,
    )?;
    Ok(out.taken)
}

// The first octets of a text, or all if it has fewer.
fn first_of(text: &[u8], count: usize) -> &[u8] {
    &text[..count.min(text.len())]
}

// Two messages of a flow each, between which nine records are lost.
fn two_messages(alloc: Global) -> Result<Vec<u8>, Fail> {
    let first = message_of_flows(alloc, 0, 1, &[FLOW])?;
    let second = message_of_flows(alloc, 10, 1, &[FLOW])?;
    Ok(text_of(alloc, &[&first, &second])?)
}

#[test]
fn ends_of_a_session(rt: HostRuntime) -> Result<(), Fail> {
    let alloc: Global = rt.alloc();
    let octets = two_messages(alloc)?;
    let malformed = text_of(alloc, &[&octets, VERSION_9])?;
    let small = SmallPlace { room: 60, ..PLACE };
    let unfinished = SmallPlace {
        is_finished: false,
        ..PLACE
    };
    let lost = "collectd: session 192.0.2.1:4739: domain 1: lost 9 backward 0\n";
    for (place, text, fail_at, first, then) in [
        (PLACE, octets.as_slice(), None, lost, ""),
        (PLACE, first_of(&octets, 70), None, "", "14 Truncated"),
        (PLACE, octets.as_slice(), Some(80), "", "15 ReadFailed"),
        (PLACE, malformed.as_slice(), None, lost, "1 Version"),
        (
            small,
            octets.as_slice(),
            None,
            "",
            "19 NotWritten: no space is left",
        ),
        (unfinished, octets.as_slice(), None, lost, "19 NotWritten"),
    ] {
        let told = told_of(alloc, place, text, fail_at, within(28))?;
        let mut wanted = String::from_str(alloc, first)?;
        if !then.is_empty() {
            wanted.push_str("collectd: session 192.0.2.1:4739: fault ")?;
            wanted.push_str(then)?;
            wanted.push_str("\n")?;
        }
        assert!(rt; told.as_slice() == wanted.as_bytes(), "{then}");
    }
    Ok(())
}

// A domain counts 16, and the template of flows 8 and its four fields.
#[test]
fn templates_have_a_limit(rt: HostRuntime) -> Result<(), Fail> {
    let alloc: Global = rt.alloc();
    let first = message_of_flows(alloc, 0, 1, &[FLOW])?;
    let second = message_of_flows(alloc, 0, 2, &[FLOW])?;
    let octets = text_of(alloc, &[&first, &second])?;
    let fault = "collectd: session 192.0.2.1:4739: fault 21 TooManyFields\n";
    for (templates, wanted) in [(56, ""), (55, fault)] {
        let told = told_of(alloc, PLACE, &octets, None, within(templates))?;
        assert!(rt; told.as_slice() == wanted.as_bytes(), "{templates}");
    }
    Ok(())
}

#[test]
fn no_memory_for_files(rt: HostRuntime) -> Result<(), Fail> {
    let alloc: Global = rt.alloc();
    let place = SmallPlace {
        has_memory: false,
        ..PLACE
    };
    let told = told_of(alloc, place, &two_messages(alloc)?, None, within(28))?;
    assert!(rt; told.starts_with(b"collectd: session 192.0.2.1:4739: fault 12 OutOfMemory\n"));
    Ok(())
}

// Without a thread it ends.
#[test]
fn no_threads(rt: HostRuntime) -> Result<(), Fail> {
    let alloc: Global = rt.alloc();
    let order = RecordOrder {
        every: NonZeroU64::MIN,
        sessions: 0,
        idle: None,
        templates: 28,
        verbosity: NOTHING_MORE,
        filter: PeerFilter {
            prefixes: Vec::new(alloc),
        },
    };
    let recorder = ConnectionRecorder {
        alloc,
        listener: NoConnections,
        place: PLACE,
        order: &order,
        shared: &Mutex::new(SharedCounts::new()),
    };
    let status = record_connections(&rt, &recorder, rt.stderr());
    assert_eq!(rt; status, Status::Failed);
    Ok(())
}
