//! What is written, and in which order (RFC 7011, section 3.1: a sequence number is the count of all data
//! records before its message, modulo 2^32). The orders that are expected were made by hand.

use crate::exporter::{Sent, large, of_domain, templates, ten, unknown};
use crate::recorder::Peer;
use recording_order::OrderCounts;
use std::alloc::Global;
use std::process::Abort;
use std::test::*;

// Asserts which datagrams of domain 1 were written, and in which order.
fn assert_written(rt: &impl Abort, peer: &Peer, expected: &[u32]) {
    assert_eq!(rt; peer.written.len(), expected.len());
    for (written, sequence) in peer.written.iter().zip(expected) {
        assert_eq!(rt; *written, (1, *sequence));
    }
}

// A peer whose datagrams wait for three seconds, and that took these at second 100.
fn after(alloc: Global, all: &[Sent]) -> Result<Peer, Fail> {
    let mut peer = Peer::new(alloc, 3);
    peer.take_all(alloc, all, 100)?;
    Ok(peer)
}

// Asserts which counts a peer gives, and that they begin anew then.
fn assert_counts(
    rt: &impl Abort,
    alloc: Global,
    peer: &mut Peer,
    expected: &[OrderCounts],
) -> Result<(), Fail> {
    let counts = peer.window.take_counts(alloc)?;
    assert_eq!(rt; counts.as_slice(), expected);
    assert_eq!(rt; peer.window.take_counts(alloc)?.len(), 0);
    Ok(())
}

const fn counts(domain: u32, doubled: u64, reordered: u64) -> OrderCounts {
    OrderCounts {
        domain,
        doubled,
        reordered,
    }
}

#[test]
fn what_comes_due_is_written_at_once(rt: HostRuntime) -> Result<(), Fail> {
    let mut peer = after(rt.alloc(), &[ten(4_294_967_290), ten(4), ten(14)])?;
    assert_written(&rt, &peer, &[4_294_967_290, 4, 14]);
    assert_counts(&rt, rt.alloc(), &mut peer, &[])
}

#[test]
fn what_is_ahead_waits_for_what_is_due(rt: HostRuntime) -> Result<(), Fail> {
    let mut peer = after(rt.alloc(), &[ten(0), ten(30), ten(20), ten(10), ten(40)])?;
    assert_written(&rt, &peer, &[0, 10, 20, 30, 40]);
    assert_counts(&rt, rt.alloc(), &mut peer, &[counts(1, 0, 2)])
}

#[test]
fn what_waits_goes_when_its_time_is_over(rt: HostRuntime) -> Result<(), Fail> {
    let alloc = rt.alloc();
    let mut peer = after(alloc, &[ten(0), ten(20), ten(30)])?;
    // It may have come at the end of second 100: at the beginning of 103 it hasn't waited for three seconds.
    peer.tick(alloc, 103)?;
    assert_written(&rt, &peer, &[0]);
    peer.tick(alloc, 104)?;
    assert_written(&rt, &peer, &[0, 20, 30]);
    // One that comes late is written at once.
    peer.take(alloc, ten(10), 105)?;
    assert_written(&rt, &peer, &[0, 20, 30, 10]);
    Ok(())
}

#[test]
fn one_that_came_already_is_dropped(rt: HostRuntime) -> Result<(), Fail> {
    let mut peer = after(rt.alloc(), &[ten(0), ten(10), ten(10), ten(30), ten(30)])?;
    assert_written(&rt, &peer, &[0, 10]);
    assert_counts(&rt, rt.alloc(), &mut peer, &[counts(1, 2, 0)])
}

#[test]
fn templates_are_never_doubled(rt: HostRuntime) -> Result<(), Fail> {
    let all = [
        ten(0),
        templates(10, 12),
        templates(10, 8),
        templates(10, 12),
    ];
    let peer = after(rt.alloc(), &all)?;
    assert_written(&rt, &peer, &[0, 10, 10, 10]);
    Ok(())
}

#[test]
fn numbers_far_away_begin_anew(rt: HostRuntime) -> Result<(), Fail> {
    let peer = after(
        rt.alloc(),
        &[ten(0), ten(30), ten(20), ten(65_547), ten(65_557)],
    )?;
    assert_written(&rt, &peer, &[0, 20, 30, 65_547, 65_557]);
    // An exporter that begins at 0 again is never held.
    let restarted = after(rt.alloc(), &[ten(1_000_000), ten(0), ten(10)])?;
    assert_written(&rt, &restarted, &[1_000_000, 0, 10]);
    Ok(())
}

#[test]
fn nothing_waits_after_an_unknown_set(rt: HostRuntime) -> Result<(), Fail> {
    let peer = after(
        rt.alloc(),
        &[ten(0), ten(50), unknown(10), ten(30), ten(20)],
    )?;
    assert_written(&rt, &peer, &[0, 10, 50, 30, 20]);
    Ok(())
}

#[test]
fn a_spoofed_number_delays_only_itself(rt: HostRuntime) -> Result<(), Fail> {
    let alloc = rt.alloc();
    let mut peer = after(alloc, &[ten(0), ten(50_000), ten(10), ten(30), ten(20)])?;
    assert_written(&rt, &peer, &[0, 10, 20, 30]);
    peer.tick(alloc, 104)?;
    peer.take_all(alloc, &[ten(40), ten(50)], 104)?;
    assert_written(&rt, &peer, &[0, 10, 20, 30, 50_000, 40, 50]);
    Ok(())
}

// Numbers of messages in place of records, and always 0.
#[test]
fn numbers_that_mean_little_keep_their_order(rt: HostRuntime) -> Result<(), Fail> {
    let mut messages = after(
        rt.alloc(),
        &[ten(0), ten(1), ten(2), ten(3), ten(4), ten(5)],
    )?;
    assert_written(&rt, &messages, &[0, 1, 2, 3, 4, 5]);
    assert_counts(&rt, rt.alloc(), &mut messages, &[])?;
    let mut zeros = after(rt.alloc(), &[ten(0), ten(0), ten(0), ten(0)])?;
    assert_written(&rt, &zeros, &[0, 0, 0, 0]);
    assert_counts(&rt, rt.alloc(), &mut zeros, &[])
}

#[test]
fn the_least_goes_where_there_is_no_room(rt: HostRuntime) -> Result<(), Fail> {
    let peer = after(rt.alloc(), &[ten(0), large(20_000), large(40_000)])?;
    assert_written(&rt, &peer, &[0, 20_000]);
    // The one that comes is the least itself.
    let nearer = after(rt.alloc(), &[ten(0), large(40_000), large(20_000)])?;
    assert_written(&rt, &nearer, &[0, 20_000]);
    Ok(())
}

#[test]
fn of_a_domain_32_wait(rt: HostRuntime) -> Result<(), Fail> {
    let alloc = rt.alloc();
    let mut peer = after(alloc, &[ten(0)])?;
    for number in 0..32u32 {
        peer.take(alloc, ten(1_000 + 100 * number), 100)?;
    }
    assert_written(&rt, &peer, &[0]);
    peer.take(alloc, ten(5_000), 100)?;
    assert_written(&rt, &peer, &[0, 1_000]);
    Ok(())
}

#[test]
fn a_domain_goes_on_while_another_waits(rt: HostRuntime) -> Result<(), Fail> {
    let alloc = rt.alloc();
    let all = [
        of_domain(1, 0),
        of_domain(2, 500),
        of_domain(1, 20),
        of_domain(2, 510),
    ];
    let mut peer = after(alloc, &all)?;
    peer.finish(alloc)?;
    let expected = [(1, 0), (2, 500), (2, 510), (1, 20)];
    assert_eq!(rt; peer.written.as_slice(), expected.as_slice());
    Ok(())
}

#[test]
fn at_the_end_they_leave_in_their_order(rt: HostRuntime) -> Result<(), Fail> {
    let alloc = rt.alloc();
    let mut peer = after(alloc, &[ten(0), ten(60), ten(20), ten(40)])?;
    peer.finish(alloc)?;
    assert_written(&rt, &peer, &[0, 20, 40, 60]);
    Ok(())
}

#[test]
fn with_no_seconds_each_is_written_as_it_comes(rt: HostRuntime) -> Result<(), Fail> {
    let alloc = rt.alloc();
    let mut peer = Peer::new(alloc, 0);
    peer.take_all(alloc, &[ten(0), ten(20), ten(10), ten(10)], 100)?;
    assert_written(&rt, &peer, &[0, 20, 10, 10]);
    Ok(())
}

// Domain 2 is the first to have a datagram doubled, and domain 1 the first that appeared.
#[test]
fn counts_are_of_domains_that_have_some(rt: HostRuntime) -> Result<(), Fail> {
    let all = [
        of_domain(1, 0),
        of_domain(3, 0),
        of_domain(2, 0),
        of_domain(2, 10),
        of_domain(2, 10),
        of_domain(1, 20),
        of_domain(1, 10),
    ];
    let mut peer = after(rt.alloc(), &all)?;
    let expected = [counts(1, 0, 1), counts(2, 1, 0)];
    assert_counts(&rt, rt.alloc(), &mut peer, &expected)
}
