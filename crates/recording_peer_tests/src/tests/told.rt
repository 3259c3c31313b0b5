//! What becomes of a peer, as plain values.

use ipfix_datagrams::DomainAdvance;
use ipfix_message::MessageFault;
use ipfix_session::SessionFault;
use recording_files::{FileReport, MemoryFiles, RecordFault};
use recording_peer::{PeerAnswer, PeerRecorder};
use std::alloc::{AllocError, Global};
use std::collections::BTreeMap;

/// What is told of a peer's session, and of its last file.
#[derive(Clone, Copy, Debug, PartialEq, Eq)]
pub struct Told {
    pub ended: Result<(), RecordFault>,
    pub last: FileReport,
    pub messages: u64,
    pub delivered: u64,
    pub fault: Option<SessionFault>,
    pub domains: usize,
}

/// What the templates of a peer may count, where that isn't tested.
pub const BUDGET: u64 = 16_384;

/// A peer of which nothing has come.
pub fn new_peer(alloc: Global) -> PeerRecorder {
    PeerRecorder::new(alloc, BTreeMap::new(alloc), BUDGET, 0)
}

/// What was answered of a datagram.
#[derive(Clone, Copy, Debug, PartialEq, Eq)]
pub enum Answer {
    Recorded(Count),
    Refused(MessageFault),
    TooMuch,
    Ignored,
}

/// What a datagram adds to the counts: its data records, and its sets of an unknown template.
#[derive(Clone, Copy, Debug, PartialEq, Eq)]
pub struct Count {
    pub sequence: u32,
    pub records: u64,
    pub unknown_sets: u64,
}

/// Takes a datagram.
pub fn take(
    alloc: Global,
    peer: &mut PeerRecorder,
    datagram: &[u8],
    files: &mut MemoryFiles,
) -> Result<Answer, RecordFault> {
    take_at(alloc, peer, datagram, 0, files)
}

/// Takes a datagram at a second.
pub fn take_at(
    alloc: Global,
    peer: &mut PeerRecorder,
    datagram: &[u8],
    second: u64,
    files: &mut MemoryFiles,
) -> Result<Answer, RecordFault> {
    match peer.take(alloc, datagram, second, files) {
        Ok(PeerAnswer::Recorded(count)) => Ok(Answer::Recorded(Count {
            sequence: count.header.sequence,
            records: count.records,
            unknown_sets: count.passed_over.unknown_sets,
        })),
        Ok(PeerAnswer::Refused(fault)) => Ok(Answer::Refused(fault)),
        Ok(PeerAnswer::TooMuch) => Ok(Answer::TooMuch),
        Ok(PeerAnswer::Ignored) => Ok(Answer::Ignored),
        Err(fault) => Err(fault),
    }
}

/// Takes datagrams in turn, and gives what was answered of each.
pub fn answers_of(
    alloc: Global,
    peer: &mut PeerRecorder,
    datagrams: &[&[u8]],
    files: &mut MemoryFiles,
) -> Result<Vec<Result<Answer, RecordFault>>, AllocError> {
    let mut answers = Vec::new(alloc);
    for datagram in datagrams {
        answers.push(take(alloc, peer, datagram, files))?;
    }
    Ok(answers)
}

/// Whether a datagram was recorded.
pub fn is_recorded(answer: Result<Answer, RecordFault>) -> bool {
    matches!(answer, Ok(Answer::Recorded(_)))
}

/// Finishes a peer's file.
pub fn finish(peer: &mut PeerRecorder, files: &mut MemoryFiles) -> Result<(), RecordFault> {
    peer.finish_file(files)
}

/// Finishes a peer's file, if that is due.
pub fn finish_if(
    is_due: bool,
    peer: &mut PeerRecorder,
    files: &mut MemoryFiles,
) -> Result<(), RecordFault> {
    if is_due { finish(peer, files) } else { Ok(()) }
}

/// Ends a peer.
pub fn end(peer: PeerRecorder) -> Told {
    let session = peer.into_session().session;
    let report = &session.report.report;
    Told {
        ended: session.ended,
        last: session.last,
        messages: report.messages,
        delivered: report.delivered,
        fault: report.fault,
        domains: report.domains.len(),
    }
}

/// Ends a peer, and gives what is told of the advance in the domain at an index.
pub fn advance_of(peer: PeerRecorder, index: usize) -> Option<DomainAdvance> {
    let advances = peer.into_session().advances;
    if index < advances.len() {
        Some(advances.at(index))
    } else {
        None
    }
}

/// Ends a peer, and gives of the domain at an index its number, its records, and how many were lost and how
/// often its sequence number went backward.
pub fn domain_of(peer: PeerRecorder, index: usize) -> Option<(u32, u64, u64, u64)> {
    let session = peer.into_session().session;
    let of = session.report.report.domains.get(index)?;
    Some((of.domain, of.count, of.lost, of.backward))
}
