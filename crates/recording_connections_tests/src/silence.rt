//! Connections that say nothing for a while.

use super::places::SmallPlace;
use ipfix_session::{READ_LIMIT, ReadError, SessionLimits, Source};
use recording_connections::{
    Connection, PatientReader, SharedCounts, SilenceLimits, record_connection,
};
use report_writing::{NOTHING_MORE, Verbosity};
use std::alloc::Global;
use std::io::{self, ErrorKind, Read};
use std::net::{IpAddr, Ipv4Addr, SocketAddr};
use std::test::*;
use std::time::Duration;
use worked_examples::FailingWriter;

/// Gives an octet, then errors of these kinds, and then its end.
#[derive(Drop)]
struct Halting<'a> {
    kinds: &'a [ErrorKind],
    reads: usize,
}

impl<'a> Read for Halting<'a> {
    fn read(&mut self, buffer: &mut [u8]) -> io::Result<usize> {
        let read = self.reads;
        self.reads = self.reads.saturating_add(1);
        if read == 0 && !buffer.is_empty() {
            buffer[0] = 7;
            return Ok(1);
        }
        match self.kinds.get(read.saturating_sub(1)) {
            Some(kind) => Err(io::Error::from(*kind)),
            None => Ok(0),
        }
    }
}

// A limit of time that has passed is a tick, unless nothing may be silent for any time at all. A peer that has vanished
// is none.
#[test]
fn ticks_and_failures(rt: HostRuntime) -> Result<(), Fail> {
    let kinds = [
        ErrorKind::WouldBlock,
        ErrorKind::TimedOut,
        ErrorKind::Interrupted,
        ErrorKind::BrokenPipe,
    ];
    let interrupted = Err(ReadError::Interrupted);
    let failed = Err(ReadError::Failed);
    for (idle, answers) in [
        (
            None,
            [Ok(1), interrupted, failed, interrupted, failed, Ok(0)],
        ),
        (
            Some(Duration::from_secs(3600)),
            [Ok(1), interrupted, failed, interrupted, failed, Ok(0)],
        ),
        (
            Some(Duration::from_secs(0)),
            [Ok(1), failed, failed, interrupted, failed, Ok(0)],
        ),
    ] {
        let reader = Halting {
            kinds: &kinds,
            reads: 0,
        };
        let silence = SilenceLimits {
            idle,
            first_message: Duration::from_secs(3600),
        };
        let mut source = PatientReader::new(&rt, reader, silence);
        let mut buffer = [0; 4];
        for answer in answers {
            assert!(rt; source.read(&mut buffer) == answer);
        }
    }
    Ok(())
}

// A connection whose first message is not whole in time fails, though octets come.
#[test]
fn no_message_in_time(rt: HostRuntime) -> Result<(), Fail> {
    let reader = Halting {
        kinds: &[],
        reads: 0,
    };
    let silence = SilenceLimits {
        idle: None,
        first_message: Duration::from_secs(0),
    };
    let mut source = PatientReader::new(&rt, reader, silence);
    assert!(rt; source.read(&mut [0; 4]) == Err(ReadError::Failed));
    Ok(())
}

// What is told of a connection that gives an octet and then this error, where it may not be silent for any time at all.
fn told_of(
    rt: &HostRuntime,
    kind: ErrorKind,
    first_message: u64,
    verbosity: Verbosity,
) -> Result<Vec<u8>, Fail> {
    let alloc: Global = rt.alloc();
    let reader = Halting {
        kinds: &[kind],
        reads: 0,
    };
    let silence = SilenceLimits {
        idle: Some(Duration::from_secs(0)),
        first_message: Duration::from_secs(first_message),
    };
    let mut connection = Connection {
        source: PatientReader::new(rt, reader, silence),
        peer: SocketAddr::new(IpAddr::V4(Ipv4Addr::new(192, 0, 2, 1)), 4739),
    };
    let place = SmallPlace {
        has_memory: true,
        room: 10_000,
        is_finished: true,
    };
    let mut out = FailingWriter::new(alloc, 1000, 1000);
    let number = SharedCounts::new().next_session();
    let limits = SessionLimits {
        reads: READ_LIMIT,
        templates: None,
    };
    record_connection(
        alloc,
        &mut connection,
        number,
        limits,
        &place,
        verbosity,
        &mut out,
    )?;
    Ok(out.taken)
}

// That a connection was silent is always told, and with `-v` why it could not be read on.
#[test]
fn silence_is_told(rt: HostRuntime) -> Result<(), Fail> {
    let verbose = Verbosity {
        verbose: true,
        ..NOTHING_MORE
    };
    let idle = "collectd: session 192.0.2.1:4739: ended: idle
collectd: session 192.0.2.1:4739: fault 15 ReadFailed
collectd: session 192.0.2.1:4739: fault 15 ReadFailed: nothing came in time
";
    let silent = "collectd: session 192.0.2.1:4739: ended: idle
collectd: session 192.0.2.1:4739: fault 15 ReadFailed
";
    let vanished = "collectd: session 192.0.2.1:4739: fault 15 ReadFailed
collectd: session 192.0.2.1:4739: fault 15 ReadFailed: nothing came in time
";
    let reset = "collectd: session 192.0.2.1:4739: fault 15 ReadFailed
collectd: session 192.0.2.1:4739: fault 15 ReadFailed: the connection was reset
";
    let failed = "collectd: session 192.0.2.1:4739: fault 15 ReadFailed
";
    for (kind, first_message, verbosity, wanted) in [
        (ErrorKind::WouldBlock, 3600, verbose, idle),
        (ErrorKind::WouldBlock, 3600, NOTHING_MORE, silent),
        (ErrorKind::BrokenPipe, 0, NOTHING_MORE, silent),
        (ErrorKind::TimedOut, 3600, verbose, vanished),
        (ErrorKind::ConnectionReset, 3600, verbose, reset),
        (ErrorKind::ConnectionReset, 3600, NOTHING_MORE, failed),
    ] {
        let told = told_of(&rt, kind, first_message, verbosity)?;
        assert!(rt;
            told.as_slice() == wanted.as_bytes(),
            "{kind:?} {first_message}"
        );
    }
    Ok(())
}
