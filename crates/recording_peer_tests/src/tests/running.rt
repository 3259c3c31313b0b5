//! Recording datagrams in memory, and reading a file.

use super::told::{finish_if, is_recorded, new_peer, take};
use ipfix_message::DataRecord;
use ipfix_session::{FromReader, SessionFault, VecSink, drive};
use recording_files::MemoryFiles;
use recording_peer::PeerRecorder;
use std::alloc::{AllocError, Global};
use std::process::Abort;

/// Takes datagrams, each of which is to be recorded.
pub fn take_all(
    rt: &impl Abort,
    alloc: Global,
    peer: &mut PeerRecorder,
    datagrams: &[&[u8]],
    files: &mut MemoryFiles,
) {
    for datagram in datagrams {
        let answer = take(alloc, peer, datagram, files);
        assert!(rt; is_recorded(answer));
    }
}

// Takes a datagram that is to be recorded, after the end of the file, if that is due.
fn take_next(
    rt: &impl Abort,
    alloc: Global,
    peer: &mut PeerRecorder,
    datagram: &[u8],
    is_due: bool,
    files: &mut MemoryFiles,
) {
    let finished = finish_if(is_due, peer, files);
    let answer = take(alloc, peer, datagram, files);
    assert_eq!(rt; (finished, is_recorded(answer)), (Ok(()), true));
}

/// The files that datagrams are recorded in, where the file is finished before the datagram of this number.
pub fn files_of(
    rt: &impl Abort,
    alloc: Global,
    datagrams: &[&[u8]],
    finish_before: usize,
) -> MemoryFiles {
    let mut peer = new_peer(alloc);
    let mut files = MemoryFiles::new(alloc, 100_000);
    for (number, datagram) in datagrams.iter().enumerate() {
        let is_due = number == finish_before;
        take_next(rt, alloc, &mut peer, datagram, is_due, &mut files);
    }
    files
}

// Appends the domain of a record, its template and its fields.
fn tell(record: &DataRecord, told: &mut Vec<u8>) -> Result<(), AllocError> {
    let [_, _, _, domain] = record.domain.to_be_bytes();
    told.push(domain)?;
    told.extend_from_slice(&record.template.to_be_bytes())?;
    for field in record.fields.iter() {
        told.extend_from_slice(field.octets)?;
    }
    Ok(())
}

// Reads a file by itself into a sink, and answers its fault, and how many sets were of an unknown template or
// skipped, and how many withdrawals ignored.
fn read(alloc: Global, file: &[u8], sink: &mut VecSink) -> (Option<SessionFault>, u64, u64, u64) {
    let mut source = FromReader::new(file);
    let report = drive(alloc, &mut source, sink, 1000);
    (
        report.fault,
        report.unknown_sets,
        report.skipped_sets,
        report.ignored_withdrawals,
    )
}

/// Reads a file by itself, and appends what its records are. It has no fault, and nothing that the strict
/// profile does not have, but for losses.
pub fn tell_file(
    rt: &impl Abort,
    alloc: Global,
    file: &[u8],
    told: &mut Vec<u8>,
) -> Result<(), AllocError> {
    let mut sink = VecSink::new(alloc);
    let found = read(alloc, file, &mut sink);
    assert_eq!(rt; found, (None, 0, 0, 0));
    for record in sink.records.iter() {
        tell(record, told)?;
    }
    Ok(())
}

/// The records of all files, each of which is read by itself.
pub fn told_by(rt: &impl Abort, alloc: Global, files: &MemoryFiles) -> Result<Vec<u8>, AllocError> {
    let mut told = Vec::new(alloc);
    for file in files.finished.iter() {
        tell_file(rt, alloc, file.as_slice(), &mut told)?;
    }
    tell_file(rt, alloc, files.unfinished.as_slice(), &mut told)?;
    Ok(told)
}

/// The records of all files, which are read as one, one after another.
pub fn told_as_one(
    rt: &impl Abort,
    alloc: Global,
    files: &MemoryFiles,
) -> Result<Vec<u8>, AllocError> {
    let mut text = Vec::new(alloc);
    for file in files.finished.iter() {
        text.extend_from_slice(file.as_slice())?;
    }
    text.extend_from_slice(files.unfinished.as_slice())?;
    let mut told = Vec::new(alloc);
    tell_file(rt, alloc, &text, &mut told)?;
    Ok(told)
}
