//! Datagrams that come late, beside templates that were sent after them (RFC 7011, section 8.2). The octets were made by hand.

use super::told::{Answer, BUDGET, Count, is_recorded, take_at};
use ipfix_message::MessageFault;
use recording_files::{MemoryFiles, RecordFault};
use recording_peer::PeerRecorder;
use std::alloc::{AllocError, Global};
use std::collections::BTreeMap;
use std::test::*;

// The source address in four octets: the old template 256, of which two records are eight octets.
const OLD: &[u8] = &[
    0x00, 0x02, 0x00, 0x0c, 0x01, 0x00, 0x00, 0x01, 0x00, 0x08, 0x00, 0x04,
];

// The count in eight octets: the new template 256, of which one record is eight octets.
const NEW: &[u8] = &[
    0x00, 0x02, 0x00, 0x0c, 0x01, 0x00, 0x00, 0x01, 0x00, 0x01, 0x00, 0x08,
];

// A data set of template 256: eight octets.
const DATA: &[u8] = &[
    0x01, 0x00, 0x00, 0x0c, 0x00, 0x00, 0x00, 0x01, 0x00, 0x00, 0x00, 0x02,
];

// A datagram with an export time, a sequence number, a domain and these sets.
fn datagram(alloc: Global, header: (u8, u8, u8), sets: &[&[u8]]) -> Result<Vec<u8>, AllocError> {
    let (export_time, sequence, domain) = header;
    let mut body = Vec::new(alloc);
    let mut length: u8 = 16;
    for set in sets {
        body.extend_from_slice(set)?;
        length = length.saturating_add(12);
    }
    let mut octets = Vec::from_slice(alloc, &[0, 10, 0, length])?;
    octets.extend_from_slice(&[0, 0, 0, export_time, 0, 0, 0, sequence, 0, 0, 0, domain])?;
    octets.extend_from_slice(&body)?;
    Ok(octets)
}

// Takes the two datagrams of such a domain.
fn change(
    alloc: Global,
    peer: &mut PeerRecorder,
    files: &mut MemoryFiles,
) -> Result<(), AllocError> {
    let before = datagram(alloc, (10, 0, 1), &[OLD])?;
    let _ = take_at(alloc, peer, &before, 99, files);
    let after = datagram(alloc, (12, 0, 1), &[NEW, DATA])?;
    let _ = take_at(alloc, peer, &after, 100, files);
    Ok(())
}

// A peer and its files, with a domain that has the old template, and then the new one, sent at 12 and taken at second 100, and a
// record of it. So the next number is 1.
fn changed(alloc: Global, reorder: u64) -> Result<(PeerRecorder, MemoryFiles), AllocError> {
    let mut peer = PeerRecorder::new(alloc, BTreeMap::new(alloc), BUDGET, reorder);
    let mut files = MemoryFiles::new(alloc, 100_000);
    change(alloc, &mut peer, &mut files)?;
    Ok((peer, files))
}

// What is answered of a datagram, and how many records the next one has.
fn take_both(
    alloc: Global,
    peer: &mut PeerRecorder,
    late: &[u8],
    second: u64,
    files: &mut MemoryFiles,
) -> Result<(Result<Answer, RecordFault>, u64), AllocError> {
    let answer = take_at(alloc, peer, late, second, files);
    let next = datagram(alloc, (13, 1, 1), &[DATA])?;
    let records = match take_at(alloc, peer, &next, second, files) {
        Ok(Answer::Recorded(count)) => count.records,
        _ => 0,
    };
    Ok((answer, records))
}

// The same of a datagram that comes then.
fn answer_then(
    alloc: Global,
    reorder: u64,
    header: (u8, u8, u8),
    sets: &[&[u8]],
    second: u64,
) -> Result<(Result<Answer, RecordFault>, u64), AllocError> {
    let late = datagram(alloc, header, sets)?;
    let (mut peer, mut files) = changed(alloc, reorder)?;
    take_both(alloc, &mut peer, &late, second, &mut files)
}

// What is answered of one that is recorded.
fn recorded(sequence: u32, records: u64, unknown_sets: u64) -> Result<Answer, RecordFault> {
    Ok(Answer::Recorded(Count {
        sequence,
        records,
        unknown_sets,
    }))
}

// It would define the id otherwise: it is refused, and the new template describes the record that follows.
#[test]
fn a_late_copy_of_an_old_template_is_refused(rt: HostRuntime) -> Result<(), Fail> {
    let alloc = rt.alloc();
    let found = [
        answer_then(alloc, 1, (10, 0, 1), &[OLD], 101)?,
        answer_then(alloc, 1, (10, 0, 1), &[OLD, DATA], 101)?,
    ];
    let refused = Ok(Answer::Refused(MessageFault::TemplateChanged));
    assert_eq!(rt; found, [(refused, 1); 2]);
    Ok(())
}

// A late data set isn't read under the new template, and then that is known again.
#[test]
fn a_late_data_set_is_unknown(rt: HostRuntime) -> Result<(), Fail> {
    let found = answer_then(rt.alloc(), 1, (11, 0, 1), &[DATA], 101)?;
    assert_eq!(rt; found, (recorded(0, 0, 1), 1));
    Ok(())
}

// A late copy of the new template changes nothing, and its data set is read.
#[test]
fn a_late_copy_of_the_same_template_is_taken(rt: HostRuntime) -> Result<(), Fail> {
    let found = answer_then(rt.alloc(), 1, (11, 0, 1), &[NEW, DATA], 101)?;
    assert_eq!(rt; found, (recorded(0, 1, 0), 1));
    Ok(())
}

// Whether a datagram with the old template is recorded then, and how many records the next one has.
fn is_recorded_then(
    alloc: Global,
    reorder: u64,
    header: (u8, u8, u8),
    second: u64,
) -> Result<(bool, u64), AllocError> {
    let (answer, records) = answer_then(alloc, reorder, header, &[OLD], second)?;
    Ok((is_recorded(answer), records))
}

// Arrival decides: of one that is later than the seconds, where they are 0, of one that was sent at the same time, and of one that has
// the next number. The old template describes what follows: two records.
#[test]
fn otherwise_arrival_decides(rt: HostRuntime) -> Result<(), Fail> {
    let alloc = rt.alloc();
    let found = [
        is_recorded_then(alloc, 1, (10, 0, 1), 102)?,
        is_recorded_then(alloc, 0, (10, 0, 1), 100)?,
        is_recorded_then(alloc, 1, (12, 0, 1), 100)?,
        is_recorded_then(alloc, 1, (10, 1, 1), 100)?,
    ];
    assert_eq!(rt; found, [(true, 2); 4]);
    Ok(())
}

// What is answered of the last of three datagrams of domain 2.
fn answer_in_2(
    alloc: Global,
    peer: &mut PeerRecorder,
    files: &mut MemoryFiles,
) -> Result<Result<Answer, RecordFault>, AllocError> {
    let first = datagram(alloc, (10, 0, 2), &[OLD, DATA])?;
    let _ = take_at(alloc, peer, &first, 100, files);
    let second = datagram(alloc, (9, 0, 2), &[DATA])?;
    let _ = take_at(alloc, peer, &second, 100, files);
    let late = datagram(alloc, (11, 1, 2), &[DATA])?;
    Ok(take_at(alloc, peer, &late, 100, files))
}

// Another domain's template doesn't count: that of domain 1 was sent at 12.
#[test]
fn another_domain_has_times_of_its_own(rt: HostRuntime) -> Result<(), Fail> {
    let (mut peer, mut files) = changed(rt.alloc(), 1)?;
    let answer = answer_in_2(rt.alloc(), &mut peer, &mut files)?;
    assert_eq!(rt; answer, recorded(1, 2, 0));
    Ok(())
}
