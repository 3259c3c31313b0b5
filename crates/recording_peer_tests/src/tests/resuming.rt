//! Datagrams that go on after an earlier run (RFC 7011, sections 3.1 and 8).

use super::datagrams::*;
use super::told::{Answer, BUDGET, Count, answers_of};
use recording_files::{MemoryFiles, RecordFault};
use recording_peer::{PeerRecorder, Resumption};
use recording_resumption::{EarlierDomains, EarlierReading, domains_left};
use std::alloc::{AllocError, Global};
use std::test::*;
use worked_examples::recordings::FIRST_OF_1;
use worked_examples::text_of;

// The definition of template 256 with the sequence number that is due after the earlier run's file, which is 3.
const RESUMED_256: &[u8] = &[
    // header: 36 octets, sequence 3, domain 1
    0x00, 0x0a, 0x00, 0x24, 0x65, 0x53, 0xf1, 0x00, 0x00, 0x00, 0x00, 0x03, 0x00, 0x00, 0x00, 0x01,
    // template set: template 256 with the address, and element 1 of enterprise 32473 of variable length
    0x00, 0x02, 0x00, 0x14, 0x01, 0x00, 0x00, 0x02, 0x00, 0x08, 0x00, 0x04, 0x80, 0x01, 0xff, 0xff,
    0x00, 0x00, 0x7e, 0xd9,
];

// That of template 257.
const RESUMED_257: &[u8] = &[
    // header: 28 octets, sequence 3, domain 1
    0x00, 0x0a, 0x00, 0x1c, 0x65, 0x53, 0xf1, 0x00, 0x00, 0x00, 0x00, 0x03, 0x00, 0x00, 0x00, 0x01,
    // template set: template 257 with the port in 2 octets
    0x00, 0x02, 0x00, 0x0c, 0x01, 0x01, 0x00, 0x01, 0x00, 0x07, 0x00, 0x02,
];

// A record of template 256 with a sequence number before that of the earlier run's file.
const FROM_BEFORE: &[u8] = &[
    // header: 26 octets, sequence 2^32 - 1, domain 1
    0x00, 0x0a, 0x00, 0x1a, 0x65, 0x53, 0xf1, 0x00, 0xff, 0xff, 0xff, 0xff, 0x00, 0x00, 0x00, 0x01,
    // data set of template 256: 192.0.2.1 with one octet
    0x01, 0x00, 0x00, 0x0a, 0xc0, 0x00, 0x02, 0x01, 0x01, 0x41,
];

// A record of template 256, of which two were lost before it.
const AFTER_A_GAP: &[u8] = &[
    // header: 26 octets, sequence 5, domain 1
    0x00, 0x0a, 0x00, 0x1a, 0x65, 0x53, 0xf1, 0x00, 0x00, 0x00, 0x00, 0x05, 0x00, 0x00, 0x00, 0x01,
    // data set of template 256: 192.0.2.1 with one octet
    0x01, 0x00, 0x00, 0x0a, 0xc0, 0x00, 0x02, 0x01, 0x01, 0x41,
];

// What an earlier run left whose file has this.
fn left_by(alloc: Global, file: &[u8]) -> Result<EarlierDomains, AllocError> {
    let mut reading = EarlierReading::new(alloc);
    reading.read(alloc, file)?;
    domains_left(alloc, &reading.finish())
}

// What is answered of a datagram with so many records, and so many unknown sets.
fn recorded(sequence: u32, records: u64, unknown_sets: u64) -> Answer {
    Answer::Recorded(Count {
        sequence,
        records,
        unknown_sets,
    })
}

// A peer of an earlier run whose file has its first datagram.
fn resumed_peer(alloc: Global) -> Result<PeerRecorder, AllocError> {
    let left = left_by(alloc, FIRST_OF_1)?;
    Ok(PeerRecorder::new(alloc, left, BUDGET, 0))
}

// What is answered of such a peer's datagrams, and what stands in its file.
fn go_on(
    alloc: Global,
    datagrams: &[&[u8]],
) -> Result<(Vec<Result<Answer, RecordFault>>, Vec<u8>), AllocError> {
    let mut files = MemoryFiles::new(alloc, 100_000);
    let mut peer = resumed_peer(alloc)?;
    let answers = answers_of(alloc, &mut peer, datagrams, &mut files)?;
    Ok((answers, files.unfinished))
}

// The templates of the earlier run are defined before the first datagram, so the file can be read by itself.
#[test]
fn templates_are_resumed(rt: HostRuntime) -> Result<(), Fail> {
    let (answers, file) = go_on(rt.alloc(), &[SECOND_OF_1])?;
    let text = text_of(rt.alloc(), &[RESUMED_256, RESUMED_257, SECOND_OF_1])?;
    let want = [Ok(recorded(3, 2, 0))];
    assert_eq!(rt;
        (answers.as_slice(), file.as_slice()),
        (want.as_slice(), text.as_slice())
    );
    Ok(())
}

// Which domain went on is kept, with how many templates, once.
#[test]
fn a_domain_goes_on_once(rt: HostRuntime) -> Result<(), Fail> {
    let alloc: Global = rt.alloc();
    let mut files = MemoryFiles::new(alloc, 100_000);
    let mut peer = resumed_peer(alloc)?;
    let datagrams = [FROM_BEFORE, SECOND_OF_1, SECOND_OF_1];
    let _ = answers_of(alloc, &mut peer, &datagrams, &mut files)?;
    let once = Resumption {
        domain: 1,
        templates: 2,
    };
    assert_eq!(rt; peer.resumed(), [once].as_slice());
    Ok(())
}

// What is missing between the two runs is a gap behind the recorder's own messages.
#[test]
fn what_is_missing_between_is_a_gap(rt: HostRuntime) -> Result<(), Fail> {
    let (answers, file) = go_on(rt.alloc(), &[AFTER_A_GAP])?;
    let text = text_of(rt.alloc(), &[RESUMED_256, RESUMED_257, AFTER_A_GAP])?;
    let want = [Ok(recorded(5, 1, 0))];
    assert_eq!(rt;
        (answers.as_slice(), file.as_slice()),
        (want.as_slice(), text.as_slice())
    );
    Ok(())
}

// One datagram from before is read without them, and loses nothing.
#[test]
fn one_from_before_is_read_without_them(rt: HostRuntime) -> Result<(), Fail> {
    let (answers, _) = go_on(rt.alloc(), &[FROM_BEFORE, SECOND_OF_1])?;
    let want = [Ok(recorded(u32::MAX, 0, 1)), Ok(recorded(3, 2, 0))];
    assert_eq!(rt; answers.as_slice(), want.as_slice());
    Ok(())
}

// Two of them end what the earlier run left.
#[test]
fn two_from_before_end_them(rt: HostRuntime) -> Result<(), Fail> {
    let (answers, _) = go_on(rt.alloc(), &[FROM_BEFORE, FROM_BEFORE, SECOND_OF_1])?;
    let unread = Ok(recorded(u32::MAX, 0, 1));
    let want = [unread, unread, Ok(recorded(3, 0, 1))];
    assert_eq!(rt; answers.as_slice(), want.as_slice());
    Ok(())
}

// A datagram of a domain that the earlier run didn't have begins as ever.
#[test]
fn other_domains_begin_as_ever(rt: HostRuntime) -> Result<(), Fail> {
    let (answers, file) = go_on(rt.alloc(), &[LAST_OF_2])?;
    let want = [Ok(recorded(1, 0, 1))];
    assert_eq!(rt;
        (answers.as_slice(), file.as_slice()),
        (want.as_slice(), LAST_OF_2)
    );
    Ok(())
}
