//! Who goes out.

use super::running::*;
use std::test::*;
use worked_examples::recordings::{FIRST_OF_1, FIRST_OF_2};

// A third peer, where there is room for two: the one that was silent for longest goes.
#[test]
fn longest_silent_goes(rt: HostRuntime) -> Result<(), Fail> {
    let alloc = rt.alloc();
    let mut peers = two_peers(&rt)?;
    record(alloc, &mut peers, 2, FIRST_OF_2, 1000);
    record(alloc, &mut peers, 1, FIRST_OF_1, 1000);
    let third = record(alloc, &mut peers, 3, FIRST_OF_1, 1000);
    assert_eq!(rt; third, (Answer::Taken, Some(peer(2))));
    assert!(rt; has(&peers, 1, FIRST_OF_1));
    assert_eq!(rt; peers.len(), 2);
    Ok(())
}

/// A message with a template alone.
const TEMPLATE: &[u8] = &[
    0, 10, 0, 28, 0, 0, 0, 0, 0, 0, 0, 0, 0, 0, 0, 1, 0, 2, 0, 12, 1, 0, 0, 1, 0, 1, 0, 4,
];

// One of which no record was read goes before the one that was silent for longest.
#[test]
fn one_without_a_record_goes_first(rt: HostRuntime) -> Result<(), Fail> {
    let alloc = rt.alloc();
    let mut peers = two_peers(&rt)?;
    record(alloc, &mut peers, 1, FIRST_OF_1, 1000);
    record(alloc, &mut peers, 2, TEMPLATE, 1000);
    let third = record(alloc, &mut peers, 3, FIRST_OF_1, 1000);
    assert_eq!(rt; third, (Answer::Taken, Some(peer(2))));
    assert!(rt; has(&peers, 1, FIRST_OF_1));
    let fourth = record(alloc, &mut peers, 4, TEMPLATE, 1000);
    assert_eq!(rt; fourth, (Answer::Taken, Some(peer(1))));
    Ok(())
}

/// A message without sets.
const BARE: &[u8] = &[0, 10, 0, 16, 0, 0, 0, 0, 0, 0, 0, 0, 0, 0, 0, 1];

// A datagram of a new peer that leaves no template in force begins no session; nor does any where another would have
// to end for it, and the place is busy.
#[test]
fn who_has_no_place(rt: HostRuntime) -> Result<(), Fail> {
    let alloc = rt.alloc();
    let mut peers = two_peers(&rt)?;
    let bare = record(alloc, &mut peers, 1, BARE, 1000);
    assert_eq!(rt; bare, (Answer::NoPlace, None));
    assert!(rt; peers.is_empty());
    record_busy(alloc, &mut peers, 1, FIRST_OF_1);
    record_busy(alloc, &mut peers, 2, FIRST_OF_2);
    let third = record_busy(alloc, &mut peers, 3, FIRST_OF_1);
    assert_eq!(rt; third, (Answer::NoPlace, None));
    let kept = record_busy(alloc, &mut peers, 1, BARE);
    assert_eq!(rt; kept, (Answer::Taken, None));
    Ok(())
}

// A peer that is silent goes, and one whose file can't be written.
#[test]
fn silent_and_not_written_go(rt: HostRuntime) -> Result<(), Fail> {
    let alloc = rt.alloc();
    let mut peers = two_peers(&rt)?;
    record(alloc, &mut peers, 1, FIRST_OF_1, 1000);
    assert_eq!(rt; peer_of(peers.take_silent(10)), None);
    assert_eq!(rt; peer_of(peers.take_silent(11)), Some(peer(1)));
    let written = record(alloc, &mut peers, 1, FIRST_OF_1, 10);
    assert_eq!(rt; written, (Answer::Ended, None));
    assert!(rt; peers.is_empty());
    assert_eq!(rt; peer_of(peers.take_out()), None);
    Ok(())
}
