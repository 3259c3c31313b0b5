//! How a peer ends: where a file isn't written, and where memory runs out.

use super::datagrams::*;
use super::told::{Answer, Told, end, finish, is_recorded, new_peer, take};
use ipfix_message::MessageFault;
use ipfix_session::SessionFault;
use recording_files::{MemoryFiles, RecordFault};
use recording_peer::PeerRecorder;
use std::alloc::Global;
use std::process::Abort;
use std::test::*;
use worked_examples::recordings::{FIRST_OF_1, FIRST_OF_2};
use worked_examples::text_of;

// Whether neither another datagram nor the end of the file can be written.
fn is_refused(alloc: Global, peer: &mut PeerRecorder, files: &mut MemoryFiles) -> bool {
    let taken = take(alloc, peer, FIRST_OF_2, files);
    let finished = finish(peer, files);
    taken == Err(RecordFault::NotWritten) && finished == Err(RecordFault::NotWritten)
}

// Takes a datagram in files that have room for 100 octets, and tries three times to go on. Answers the files, what
// is told of the peer, and whether each try was refused.
fn fill(alloc: Global) -> (MemoryFiles, Told, bool) {
    let mut peer = new_peer(alloc);
    let mut files = MemoryFiles::new(alloc, 100);
    let mut right = is_recorded(take(alloc, &mut peer, FIRST_OF_1, &mut files));
    for _ in 0..3 {
        let refused = is_refused(alloc, &mut peer, &mut files);
        right = right && refused;
    }
    (files, end(peer), right)
}

// The first datagram stands whole, and then the first octets of the next. From then on each call answers the
// same, and writes nothing.
#[test]
fn a_full_place_ends_the_peer(rt: HostRuntime) -> Result<(), Fail> {
    let alloc: Global = rt.alloc();
    let (files, told, right) = fill(alloc);
    let whole = text_of(alloc, &[FIRST_OF_1, &FIRST_OF_2[..29]])?;
    let counts = (files.failed, files.finished.len());
    assert_eq!(rt;
        (right, counts, files.unfinished.as_slice()),
        (true, (1, 0), whole.as_slice())
    );
    let closed = Some(SessionFault::SinkClosed);
    assert_eq!(rt;
        (told.ended, told.last.messages, told.messages, told.fault),
        (Err(RecordFault::NotWritten), 1, 1, closed)
    );
    Ok(())
}

// Whether a peer that was ended for want of memory answers so from then on.
fn is_ended(alloc: Global, peer: &mut PeerRecorder, files: &mut MemoryFiles) -> bool {
    let out_of_memory = RecordFault::Message(MessageFault::OutOfMemory);
    let ended = peer.end();
    let taken = take(alloc, peer, FIRST_OF_2, files);
    let finished = finish(peer, files);
    ended == out_of_memory && taken == Err(out_of_memory) && finished == Err(out_of_memory)
}

// Takes a datagram and ends the peer. Answers the files, what is told of it, and whether each call answered well.
fn take_and_end(alloc: Global) -> (MemoryFiles, Told, [bool; 2]) {
    let mut peer = new_peer(alloc);
    let mut files = MemoryFiles::new(alloc, 1000);
    let taken = take(alloc, &mut peer, FIRST_OF_1, &mut files);
    let right = is_ended(alloc, &mut peer, &mut files);
    (files, end(peer), [is_recorded(taken), right])
}

// The datagrams before stand whole, and are told.
#[test]
fn a_peer_is_ended(rt: HostRuntime) -> Result<(), Fail> {
    let (files, told, right) = take_and_end(rt.alloc());
    let out_of_memory = RecordFault::Message(MessageFault::OutOfMemory);
    assert_eq!(rt;
        (
            right,
            files.unfinished.as_slice(),
            told.ended,
            told.messages
        ),
        ([true; 2], FIRST_OF_1, Err(out_of_memory), 1)
    );
    Ok(())
}

// Whether a datagram was recorded. If not, memory ran out.
fn is_taken(rt: &impl Abort, answer: Result<Answer, RecordFault>) -> bool {
    match answer {
        Ok(Answer::Recorded(_)) => true,
        Ok(other) => {
            assert_eq!(rt; other, Answer::Refused(MessageFault::OutOfMemory));
            false
        }
        // (files in memory are not written if they find none)
        Err(fault) => {
            let out_of_memory = RecordFault::Message(MessageFault::OutOfMemory);
            assert!(rt; fault == out_of_memory || fault == RecordFault::NotWritten);
            false
        }
    }
}

// How many of all datagrams were recorded.
fn count_taken(
    rt: &impl Abort,
    alloc: Global,
    peer: &mut PeerRecorder,
    files: &mut MemoryFiles,
) -> u64 {
    let mut recorded: u64 = 0;
    for datagram in DATAGRAMS {
        let answer = take(alloc, peer, datagram, files);
        if is_taken(rt, answer) {
            recorded = recorded.saturating_add(1);
        }
    }
    recorded
}

// A refused allocation refuses the datagram or ends the peer; what was recorded before stands whole. Here
// `tests/gate/refusals` refuses each allocation in turn.
#[test]
fn recording_survives_refused_memory(rt: HostRuntime) -> Result<(), Fail> {
    let mut peer = new_peer(rt.alloc());
    let mut files = MemoryFiles::new(rt.alloc(), 100_000);
    let recorded = count_taken(&rt, rt.alloc(), &mut peer, &mut files);
    if recorded == 6 {
        assert_eq!(rt; files.finished.len(), 0);
        let _ = eprintln!(rt; "take: right");
    } else {
        let _ = eprintln!(rt; "take: OutOfMemory");
    }
    assert_eq!(rt; end(peer).messages, recorded);
    Ok(())
}
