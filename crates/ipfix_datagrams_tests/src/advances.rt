//! Advances beside the records that came. The expected numbers are counted by hand, after RFC 7011, section
//! 3.1.

use ipfix_datagrams::{DomainAdvance, SequenceAdvances};
use std::alloc::{AllocError, Global};
use std::test::*;

/// What is told of messages: the domain, the sequence number and the data records of each.
fn told(alloc: Global, messages: &[(u32, u32, u64)]) -> Result<SequenceAdvances, AllocError> {
    let mut advances = SequenceAdvances::new(alloc);
    for (domain, sequence, records) in messages {
        advances.make_room()?;
        advances.note(*domain, *sequence, *records);
    }
    Ok(advances)
}

fn first_of(advances: &SequenceAdvances) -> Option<DomainAdvance> {
    if advances.is_empty() {
        None
    } else {
        Some(advances.at(0))
    }
}

// Ten records before the number goes over 2^32, ten that were lost, and five; then the ten come late.
const LATE: [(u32, u32, u64); 3] = [(7, 4_294_967_290, 10), (7, 14, 5), (7, 4, 10)];

#[test]
fn lost_records_are_in_the_advance(rt: HostRuntime) -> Result<(), Fail> {
    let advances = told(rt.alloc(), &LATE[..2])?;
    let expected = DomainAdvance {
        domain: 7,
        advance: 25,
        came: 15,
    };
    assert_eq!(rt; first_of(&advances), Some(expected));
    Ok(())
}

#[test]
fn late_ones_came(rt: HostRuntime) -> Result<(), Fail> {
    let advances = told(rt.alloc(), &LATE)?;
    let expected = DomainAdvance {
        domain: 7,
        advance: 25,
        came: 25,
    };
    assert_eq!(rt; first_of(&advances), Some(expected));
    Ok(())
}

// A domain has its place where it first appears, and one that begins in mid-stream advances from there.
#[test]
fn domains_are_told_apart(rt: HostRuntime) -> Result<(), Fail> {
    let advances = told(rt.alloc(), &[(2, 900, 1), (1, 0, 3), (2, 901, 1)])?;
    let expected = DomainAdvance {
        domain: 2,
        advance: 2,
        came: 2,
    };
    assert_eq!(rt; advances.len(), 2);
    assert_eq!(rt; first_of(&advances), Some(expected));
    Ok(())
}
