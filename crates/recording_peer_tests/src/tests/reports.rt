//! What is told of a peer and of its files.

use super::datagrams::*;
use super::running::take_all;
use super::told::{Answer, Count, advance_of, domain_of, end, finish, new_peer, take};
use ipfix_datagrams::DomainAdvance;
use recording_files::{FileReport, MemoryFiles, RecordFault};
use recording_peer::PeerRecorder;
use std::alloc::Global;
use std::process::Abort;
use std::test::*;
use worked_examples::recordings::FIRST_OF_1;

// A peer after all datagrams, and its files: one was finished before the changed template.
fn recorded(rt: &impl Abort, alloc: Global) -> (PeerRecorder, MemoryFiles) {
    let mut peer = new_peer(alloc);
    let mut files = MemoryFiles::new(alloc, 100_000);
    take_all(rt, alloc, &mut peer, &DATAGRAMS[..3], &mut files);
    assert_eq!(rt; finish(&mut peer, &mut files), Ok(()));
    take_all(rt, alloc, &mut peer, &DATAGRAMS[3..], &mut files);
    (peer, files)
}

// The message that withdraws the changed template is counted in neither.
#[test]
fn each_file_has_its_report(rt: HostRuntime) -> Result<(), Fail> {
    let first = FileReport {
        messages: 3,
        records: 6,
        ..FileReport::EMPTY
    };
    let second = FileReport {
        messages: 3,
        records: 4,
        lost: 4,
        ..FileReport::EMPTY
    };
    let (peer, files) = recorded(&rt, rt.alloc());
    let told = end(peer);
    let counts = [told.messages, told.delivered];
    assert_eq!(rt;
        (files.reports.as_slice(), told.ended, told.last),
        ([first].as_slice(), Ok(()), second)
    );
    assert_eq!(rt; (counts, told.domains), ([6, 10], 2));
    Ok(())
}

// What is told then of the domain at an index.
fn domain_told(rt: &impl Abort, alloc: Global, index: usize) -> Option<(u32, u64, u64, u64)> {
    let (peer, _) = recorded(rt, alloc);
    domain_of(peer, index)
}

// The losses of domain 1 are told, though a file begins between its datagrams: its sequence number advanced
// by nine before the third, and five records came (RFC 7011, section 3.1).
#[test]
fn the_ledger_goes_on_in_the_next_file(rt: HostRuntime) -> Result<(), Fail> {
    let alloc: Global = rt.alloc();
    let told = [domain_told(&rt, alloc, 0), domain_told(&rt, alloc, 1)];
    assert_eq!(rt; told, [Some((1, 8, 4, 0)), Some((2, 2, 0, 0))]);
    Ok(())
}

// What is answered of a datagram after others.
fn answer_after(
    rt: &impl Abort,
    alloc: Global,
    before: &[&[u8]],
    datagram: &[u8],
) -> Result<Answer, RecordFault> {
    let mut peer = new_peer(alloc);
    let mut files = MemoryFiles::new(alloc, 100_000);
    take_all(rt, alloc, &mut peer, before, &mut files);
    take(alloc, &mut peer, datagram, &mut files)
}

// That a datagram after others is counted so.
fn assert_count(
    rt: &impl Abort,
    alloc: Global,
    before: &[&[u8]],
    datagram: &[u8],
    (sequence, records, unknown_sets): (u32, u64, u64),
) {
    let count = Count {
        sequence,
        records,
        unknown_sets,
    };
    let answer = answer_after(rt, alloc, before, datagram);
    assert_eq!(rt; answer, Ok(Answer::Recorded(count)));
}

// The header, the data records and the unknown sets are those of the datagram, and not of the messages in front
// of it, which withdraw template 257 or define template 256 again.
#[test]
fn the_count_is_of_the_datagram(rt: HostRuntime) -> Result<(), Fail> {
    let alloc: Global = rt.alloc();
    let first: &[&[u8]] = &[FIRST_OF_1];
    let withdrawn: &[&[u8]] = &[FIRST_OF_1, WITHDRAWS_256];
    assert_count(&rt, alloc, &[], FIRST_OF_1, (0, 3, 0));
    assert_count(&rt, alloc, &[], SECOND_OF_1, (3, 0, 1));
    assert_count(&rt, alloc, first, SECOND_OF_1, (3, 2, 0));
    assert_count(&rt, alloc, first, CHANGES_257, (9, 1, 0));
    assert_count(&rt, alloc, first, WITHDRAWS_256, (12, 0, 0));
    assert_count(&rt, alloc, withdrawn, SECOND_OF_1, (3, 2, 0));
    Ok(())
}

// What is told of the advance in domain 1, over these datagrams.
fn advance_over(rt: &impl Abort, alloc: Global, datagrams: &[&[u8]]) -> Option<DomainAdvance> {
    let mut peer = new_peer(alloc);
    let mut files = MemoryFiles::new(alloc, 100_000);
    take_all(rt, alloc, &mut peer, datagrams, &mut files);
    advance_of(peer, 0)
}

// Of twelve records eight came.
#[test]
fn the_advance_is_of_the_datagrams(rt: HostRuntime) -> Result<(), Fail> {
    let expected = DomainAdvance {
        domain: 1,
        advance: 12,
        came: 8,
    };
    assert_eq!(rt; advance_over(&rt, rt.alloc(), &DATAGRAMS), Some(expected));
    Ok(())
}

// The second datagram of domain 1 comes last, after the one that it was sent before, and twice.
#[test]
fn late_and_doubled_datagrams_came(rt: HostRuntime) -> Result<(), Fail> {
    let datagrams = [FIRST_OF_1, CHANGES_257, SECOND_OF_1, SECOND_OF_1];
    let expected = DomainAdvance {
        domain: 1,
        advance: 10,
        came: 8,
    };
    assert_eq!(rt; advance_over(&rt, rt.alloc(), &datagrams), Some(expected));
    Ok(())
}

// Whether a datagram was taken, and not ignored.
fn is_kept(answer: Result<Answer, RecordFault>) -> bool {
    answer.is_ok() && answer != Ok(Answer::Ignored)
}

// A file with a datagram that withdraws a template, where others of withdrawals alone came before it and after it.
// Answers which were kept, and which ignored, and how the file was finished.
fn ignore(
    alloc: Global,
    peer: &mut PeerRecorder,
    files: &mut MemoryFiles,
) -> ([bool; 2], [bool; 3], Result<(), RecordFault>) {
    let ignored = Ok(Answer::Ignored);
    let before = take(alloc, peer, WITHDRAWS_ALL, files);
    let first = take(alloc, peer, FIRST_OF_1, files);
    let second = take(alloc, peer, WITHDRAWS_256, files);
    let after = take(alloc, peer, WITHDRAWS_ALL, files);
    let finished = finish(peer, files);
    let last = take(alloc, peer, WITHDRAWS_ALL, files);
    (
        [is_kept(first), is_kept(second)],
        [before == ignored, after == ignored, last == ignored],
        finished,
    )
}

// Nothing of them is in the file. Their withdrawals count for the file that isn't finished, with those of the
// datagram that is in it.
#[test]
fn ignored_withdrawals_are_counted(rt: HostRuntime) -> Result<(), Fail> {
    let mut peer = new_peer(rt.alloc());
    let mut files = MemoryFiles::new(rt.alloc(), 100_000);
    let answers = ignore(rt.alloc(), &mut peer, &mut files);
    let told = end(peer);
    let expected = FileReport {
        messages: 2,
        records: 3,
        lost: 9,
        ignored_withdrawals: 5,
        ..FileReport::EMPTY
    };
    let last = FileReport {
        ignored_withdrawals: 2,
        ..FileReport::EMPTY
    };
    let reports = (files.reports.as_slice(), told.last);
    assert_eq!(rt;
        (answers, reports, files.unfinished.len()),
        (
            ([true; 2], [true; 3], Ok(())),
            ([expected].as_slice(), last),
            0
        )
    );
    Ok(())
}
