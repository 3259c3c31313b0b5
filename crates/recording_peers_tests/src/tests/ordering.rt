//! In which order the datagrams of a peer stand in its file. The template comes first, and then two records
//! in each datagram; what is expected was made by hand.

use super::exporter::*;
use super::running::*;
use recording_files::MemoryFiles;
use recording_peers::Peers;
use std::alloc::{AllocError, Global};
use std::process::Abort;
use std::test::*;

// A template, and then datagrams of two records, with these sequence numbers, all at second 10.
fn take_all(
    alloc: Global,
    peers: &mut Peers<MemoryFiles>,
    sequences: &[u32],
) -> Result<(), AllocError> {
    record(alloc, peers, 1, &template(alloc, 0, 4)?, 10_000);
    for sequence in sequences {
        record(alloc, peers, 1, &two_records(alloc, *sequence)?, 10_000);
    }
    Ok(())
}

// Asserts that the file has the template, and then datagrams with these sequence numbers.
fn assert_order(
    rt: &impl Abort,
    alloc: Global,
    peers: &Peers<MemoryFiles>,
    sequences: &[u32],
) -> Result<(), Fail> {
    let mut expected = template(alloc, 0, 4)?;
    for sequence in sequences {
        expected.extend_from_slice(&two_records(alloc, *sequence)?)?;
    }
    assert!(rt; has(peers, 1, &expected));
    Ok(())
}

// Two that come swapped stand in their order, and the later one is counted as reordered.
#[test]
fn swapped_ones_are_put_into_order(rt: HostRuntime) -> Result<(), Fail> {
    let alloc = rt.alloc();
    let mut peers = two_peers(&rt)?;
    take_all(alloc, &mut peers, &[0, 4, 2])?;
    assert_order(&rt, alloc, &peers, &[0, 2, 4])?;
    assert_eq!(rt; orders_in_turn(alloc, &mut peers, 11, false), (0, 0));
    assert_eq!(rt; orders_in_turn(alloc, &mut peers, 12, true), (0, 1));
    Ok(())
}

// One that comes twice stands there once, and is counted once, at the end of the period.
#[test]
fn doubled_one_is_dropped(rt: HostRuntime) -> Result<(), Fail> {
    let alloc = rt.alloc();
    let mut peers = two_peers(&rt)?;
    take_all(alloc, &mut peers, &[0, 2, 2])?;
    assert_order(&rt, alloc, &peers, &[0, 2])?;
    assert_eq!(rt; orders_in_turn(alloc, &mut peers, 11, false), (0, 0));
    assert_eq!(rt; orders_in_turn(alloc, &mut peers, 12, true), (1, 0));
    assert_eq!(rt; orders_in_turn(alloc, &mut peers, 13, true), (0, 0));
    Ok(())
}

// Template A, then B, then A again: none of them is dropped.
#[test]
fn template_that_comes_again_is_recorded(rt: HostRuntime) -> Result<(), Fail> {
    let alloc = rt.alloc();
    let mut peers = two_peers(&rt)?;
    record(alloc, &mut peers, 1, &template(alloc, 0, 4)?, 10_000);
    record(alloc, &mut peers, 1, &template(alloc, 0, 2)?, 10_000);
    record(alloc, &mut peers, 1, &template(alloc, 0, 4)?, 10_000);
    assert!(rt; ends_with(&peers, 1, &template(alloc, 0, 4)?));
    assert_eq!(rt; orders_in_turn(alloc, &mut peers, 11, true), (0, 0));
    Ok(())
}

// One that is ahead of one that never comes waits for more than a second.
#[test]
fn waiting_one_goes_when_its_time_is_over(rt: HostRuntime) -> Result<(), Fail> {
    let alloc = rt.alloc();
    let mut peers = two_peers(&rt)?;
    take_all(alloc, &mut peers, &[0, 4])?;
    assert_order(&rt, alloc, &peers, &[0])?;
    orders_in_turn(alloc, &mut peers, 11, false);
    assert_order(&rt, alloc, &peers, &[0])?;
    orders_in_turn(alloc, &mut peers, 12, false);
    assert_order(&rt, alloc, &peers, &[0, 4])
}

// Thirty-two wait; for one more the first of them goes, and then all follow on it.
#[test]
fn no_more_wait_than_there_is_room_for(rt: HostRuntime) -> Result<(), Fail> {
    let alloc = rt.alloc();
    let mut peers = two_peers(&rt)?;
    let mut sequences = Vec::new(alloc);
    sequences.push(0)?;
    for number in 2..34 {
        sequences.push(number * 2)?;
    }
    take_all(alloc, &mut peers, &sequences)?;
    assert_order(&rt, alloc, &peers, &[0])?;
    record(alloc, &mut peers, 1, &two_records(alloc, 68)?, 10_000);
    sequences.push(68)?;
    assert_order(&rt, alloc, &peers, &sequences)
}

// At the end of the session those that wait are recorded, in their order.
#[test]
fn waiting_ones_are_recorded_at_the_end(rt: HostRuntime) -> Result<(), Fail> {
    let alloc = rt.alloc();
    let mut peers = two_peers(&rt)?;
    take_all(alloc, &mut peers, &[0, 6, 4])?;
    let Some((_, mut session)) = peers.take_out() else {
        return Err(Fail::new("no peer is kept"));
    };
    assert!(rt; session.release(alloc).is_ok());
    let mut expected = template(alloc, 0, 4)?;
    for sequence in [0, 4, 6] {
        expected.extend_from_slice(&two_records(alloc, sequence)?)?;
    }
    assert!(rt; session.files.unfinished.as_slice() == expected.as_slice());
    assert_eq!(rt; session.window.waiting_count(), 0);
    Ok(())
}

// With no seconds each is recorded as it comes, and as often as it comes.
#[test]
fn with_no_seconds_each_is_recorded_at_once(rt: HostRuntime) -> Result<(), Fail> {
    let alloc = rt.alloc();
    let mut peers = peers_that_wait(&rt, 0)?;
    take_all(alloc, &mut peers, &[0, 4, 2, 2])?;
    assert_order(&rt, alloc, &peers, &[0, 4, 2, 2])?;
    assert_eq!(rt; orders_in_turn(alloc, &mut peers, 11, true), (0, 0));
    Ok(())
}

// A newer template waited, and was recorded at second 12. A copy of the old one that was sent before it, and comes a second later, is
// refused; one that comes after that is recorded.
#[test]
fn a_late_copy_of_an_old_template_is_refused(rt: HostRuntime) -> Result<(), Fail> {
    let alloc = rt.alloc();
    let mut peers = two_peers(&rt)?;
    take_all(alloc, &mut peers, &[0])?;
    record(
        alloc,
        &mut peers,
        1,
        &template_after(alloc, 2, 4, 2)?,
        10_000,
    );
    orders_in_turn(alloc, &mut peers, 12, false);
    assert!(rt; ends_with(&peers, 1, &template_after(alloc, 2, 4, 2)?));
    record_at(alloc, &mut peers, 1, &template_after(alloc, 1, 2, 4)?, 13);
    assert!(rt; ends_with(&peers, 1, &template_after(alloc, 2, 4, 2)?));
    assert_eq!(rt; refused_in_turn(alloc, &mut peers), Some(1));
    record_at(alloc, &mut peers, 1, &template_after(alloc, 1, 2, 4)?, 14);
    assert!(rt; ends_with(&peers, 1, &template_after(alloc, 1, 2, 4)?));
    Ok(())
}
