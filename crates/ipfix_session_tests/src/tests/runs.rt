//! A text that is read from a source, and fed in pieces.

ghost use Rattle.std.specs.Prelude.{◌<◌};

use super::examples::are_same;
use ipfix_message::DataRecord;
use ipfix_session::{FromReader, READ_LIMIT, ScriptSource, Session, SessionReport, VecSink, drive};
use std::alloc::Global;
use std::process::Abort;
use std::test::*;

/// The sink of a session, and its report.
#[derive(Drop)]
pub struct Run {
    pub sink: VecSink,
    pub report: SessionReport,
}

impl Run {
    pub fn records(&self) -> &[DataRecord] {
        &self.sink.records
    }

    /// The number of the fault.
    pub fn fault(&self) -> Option<u8> {
        self.report.fault.map(|fault| fault.number())
    }
}

/// A text that is fed in pieces of this size.
pub fn fed(alloc: Global, text: &[u8], size: usize) -> Run
    requires { 0 < size }
{
    let mut sink = VecSink::new(alloc);
    let mut session = Session::new(alloc);
    for piece in text.chunks(size) {
        let _ = session.feed(alloc, piece, &mut sink);
    }
    Run {
        sink,
        report: session.finish(),
    }
}

/// A text that is fed in these parts: its front, nothing, and the rest.
pub fn fed_parts(alloc: Global, text: &[u8], front: usize) -> Run {
    let mut sink = VecSink::new(alloc);
    let mut session = Session::new(alloc);
    let (front, rest) = text.split_at(front.min(text.len()));
    for piece in [front, &[], rest] {
        let _ = session.feed(alloc, piece, &mut sink);
    }
    Run {
        sink,
        report: session.finish(),
    }
}

/// A text that is read with up to 65,536 octets a read.
pub fn driven(alloc: Global, text: &[u8]) -> Run {
    let mut sink = VecSink::new(alloc);
    let mut source = FromReader::new(text);
    let report = drive(alloc, &mut source, &mut sink, READ_LIMIT);
    Run { sink, report }
}

/// A text that is read with one octet a read, the second of which is interrupted.
pub fn trickled(alloc: Global, text: &[u8]) -> Result<Run, Fail> {
    let mut sink = VecSink::new(alloc);
    let mut source = ScriptSource::new(Vec::from_slice(alloc, text)?, 1, Some(2), None);
    let report = drive(alloc, &mut source, &mut sink, READ_LIMIT);
    Ok(Run { sink, report })
}

/// That a text gives the same fed whole and fed octet by octet.
pub fn assert_one_meaning(rt: &impl Abort, alloc: Global, text: &[u8]) -> Run {
    let whole = fed(alloc, text, 65_536);
    let trickled = fed(alloc, text, 1);
    assert!(rt; are_same(whole.records(), trickled.records()));
    assert_eq!(rt; whole.report, trickled.report);
    whole
}
