//! Why a driven session ended: a sink that takes nothing, a first read that fails, and readers' errors.

use super::narrow::Narrow;
use ipfix_session::{FromReader, ReadError, ScriptSource, SessionFault, Source, VecSink, drive};
use std::alloc::Global;
use std::io::{self, ErrorKind, Read};
use std::test::*;
use worked_examples::flows::ONE_FLOW;
use worked_examples::text_of;

#[test]
fn a_sink_that_takes_nothing_closes_the_session(rt: HostRuntime) -> Result<(), Fail> {
    let alloc: Global = rt.alloc();
    let text = text_of(alloc, &[ONE_FLOW, ONE_FLOW])?;
    let mut source = FromReader::new(text.as_slice());
    let mut sink = Narrow::new(alloc, 0);
    let report = drive(alloc, &mut source, &mut sink, 100);
    assert_eq!(rt; (report.messages, report.delivered), (0, 0));
    assert_eq!(rt; report.domains.len(), 0);
    assert_eq!(rt; report.fault, Some(SessionFault::SinkClosed));
    assert_eq!(rt; sink.records.len(), 0);
    Ok(())
}

// The first read is the last that is allowed: it fails, is interrupted, or gives octets or the end.
#[test]
fn ends_after_one_read(rt: HostRuntime) -> Result<(), Fail> {
    let alloc: Global = rt.alloc();
    for (text, interrupt_at, fail_at, fault, delivered) in [
        (ONE_FLOW, None, Some(0), Some(SessionFault::ReadFailed), 0),
        (ONE_FLOW, Some(1), None, Some(SessionFault::TooManyReads), 0),
        (ONE_FLOW, None, None, Some(SessionFault::TooManyReads), 1),
        (&[], None, None, None, 0),
    ] {
        let octets = Vec::from_slice(alloc, text)?;
        let mut source = ScriptSource::new(octets, 68, interrupt_at, fail_at);
        let report = drive(alloc, &mut source, &mut VecSink::new(alloc), 1);
        assert_eq!(rt; report.fault, fault);
        assert_eq!(rt; (report.messages, report.delivered), (delivered, delivered));
    }
    Ok(())
}

/// A reader that answers an error once, and then goes on.
#[derive(Drop)]
struct Faltering<'a> {
    text: &'a [u8],
    error: Option<ErrorKind>,
}

impl Read for Faltering<'_> {
    fn read(&mut self, buffer: &mut [u8]) -> io::Result<usize> {
        match self.error.take() {
            Some(kind) => Err(io::Error::from(kind)),
            None => self.text.read(buffer),
        }
    }
}

#[test]
fn errors_of_readers_are_failures_or_interruptions(rt: HostRuntime) {
    let alloc: Global = rt.alloc();
    let failed = Some(SessionFault::ReadFailed);
    for (kind, read_error, fault, delivered) in [
        (ErrorKind::Interrupted, ReadError::Interrupted, None, 1),
        (ErrorKind::ConnectionReset, ReadError::Failed, failed, 0),
        (ErrorKind::WouldBlock, ReadError::Failed, failed, 0),
        (ErrorKind::UnexpectedEof, ReadError::Failed, failed, 0),
    ] {
        let mut source = source_with_error(ONE_FLOW, kind);
        assert_eq!(rt; source.read(&mut [0; 4]), Err(read_error));
        assert_eq!(rt; source.read(&mut [0; 4]), Ok(4));
        let mut source = source_with_error(ONE_FLOW, kind);
        let report = drive(alloc, &mut source, &mut VecSink::new(alloc), 100);
        assert_eq!(rt; report.fault, fault);
        assert_eq!(rt; report.delivered, delivered);
    }
}

// A source whose first read meets an error of this kind.
fn source_with_error(text: &[u8], kind: ErrorKind) -> FromReader<Faltering<'_>> {
    FromReader::new(Faltering {
        text,
        error: Some(kind),
    })
}
