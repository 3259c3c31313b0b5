//! Refused datagrams change nothing.

use super::datagrams::*;
use super::running::{files_of, told_by};
use super::told::{Answer, Count, end, is_recorded, new_peer, take};
use ipfix_message::MessageFault;
use recording_files::{MemoryFiles, RecordFault};
use recording_peer::PeerRecorder;
use std::alloc::Global;
use std::collections::BTreeMap;
use std::test::*;
use worked_examples::faults::VERSION_9;
use worked_examples::flows::{CUT_FLOW, NEXT_FLOW, ONE_FLOW};
use worked_examples::templates::{CHANGED_TEMPLATE, ZERO_LENGTH_TEMPLATE};

// Whether a datagram of version 9, one that is cut, and others with faults are each refused with its fault.
fn are_refused(alloc: Global, peer: &mut PeerRecorder, files: &mut MemoryFiles) -> bool {
    let answers = [
        take(alloc, peer, VERSION_9, files),
        take(alloc, peer, CUT_FLOW, files),
        take(alloc, peer, ZERO_LENGTH_TEMPLATE, files),
        take(alloc, peer, CHANGED_TEMPLATE, files),
    ];
    answers
        == [
            Ok(Answer::Refused(MessageFault::Version)),
            Ok(Answer::Refused(MessageFault::MessageLength)),
            Ok(Answer::Refused(MessageFault::ZeroLength)),
            Ok(Answer::Refused(MessageFault::TemplateChanged)),
        ]
}

// Takes all datagrams, and those before each of them. Answers whether only they were recorded.
fn take_among_refused(alloc: Global, peer: &mut PeerRecorder, files: &mut MemoryFiles) -> bool {
    let mut right = true;
    for datagram in DATAGRAMS {
        let refused = are_refused(alloc, peer, files);
        let answer = take(alloc, peer, datagram, files);
        right = right && refused && is_recorded(answer);
    }
    right
}

// Whether these are the same files.
fn are_same(files: &MemoryFiles, others: &MemoryFiles) -> bool {
    let mut same = files.finished.len() == others.finished.len()
        && files.unfinished.as_slice() == others.unfinished.as_slice();
    for (file, other) in files.finished.iter().zip(others.finished.iter()) {
        same = same && file.as_slice() == other.as_slice();
    }
    same
}

// The files are those of the datagrams that aren't refused alone.
#[test]
fn refused_datagrams_change_nothing(rt: HostRuntime) -> Result<(), Fail> {
    let alloc: Global = rt.alloc();
    let mut peer = new_peer(alloc);
    let mut files = MemoryFiles::new(alloc, 100_000);
    let taken = take_among_refused(alloc, &mut peer, &mut files);
    let messages = end(peer).messages;
    let same = are_same(&files, &files_of(&rt, alloc, &DATAGRAMS, 100));
    let told = told_by(&rt, alloc, &files)?;
    assert_eq!(rt;
        (taken, messages, same, told.as_slice()),
        (true, 6, true, TOLD)
    );
    Ok(())
}

// Template 300 with the port, and template 256 with the count alone.
const DEFINES_300_AND_CHANGES_256: &[u8] = &[
    // header: 36 octets, sequence 1, domain 1
    0x00, 0x0a, 0x00, 0x24, 0x65, 0x53, 0xf1, 0x00, 0x00, 0x00, 0x00, 0x01, 0x00, 0x00, 0x00, 0x01,
    // template set: template 300 with the port in 2 octets, and template 256 with the count in 4
    0x00, 0x02, 0x00, 0x14, 0x01, 0x2c, 0x00, 0x01, 0x00, 0x07, 0x00, 0x02, 0x01, 0x00, 0x00, 0x01,
    0x00, 0x01, 0x00, 0x04,
];

// What is answered of flows by template 256, which is defined, changed in vain and defined again.
fn answers_without_room(
    alloc: Global,
    peer: &mut PeerRecorder,
    files: &mut MemoryFiles,
) -> [Result<Answer, RecordFault>; 6] {
    [
        take(alloc, peer, ONE_FLOW, files),
        take(alloc, peer, DEFINES_300_AND_CHANGES_256, files),
        take(alloc, peer, NEXT_FLOW, files),
        take(alloc, peer, NEXT_FLOW, files),
        take(alloc, peer, ONE_FLOW, files),
        take(alloc, peer, NEXT_FLOW, files),
    ]
}

// What is answered of the next flow, if it has so many records, and so many unknown sets.
fn next_flow(records: u64, unknown_sets: u64) -> Result<Answer, RecordFault> {
    Ok(Answer::Recorded(Count {
        sequence: 1,
        records,
        unknown_sets,
    }))
}

// A domain with a template of four fields counts 28. What has no room changes a template: that is known no more.
#[test]
fn a_template_without_room_is_known_no_more(rt: HostRuntime) -> Result<(), Fail> {
    let alloc: Global = rt.alloc();
    let mut peer = PeerRecorder::new(alloc, BTreeMap::new(alloc), 28, 0);
    let mut files = MemoryFiles::new(alloc, 100_000);
    let [first, changed, next, again, later, last] = answers_without_room(
        alloc, &mut peer, &mut files,
    );
    let unknown = next_flow(0, 1);
    let defined = [is_recorded(first), is_recorded(later)];
    assert_eq!(rt;
        (defined, changed, [next, again], last),
        (
            [true; 2],
            Ok(Answer::TooMuch),
            [unknown; 2],
            next_flow(1, 0)
        )
    );
    Ok(())
}
