//! What a file has for a session that goes on, worked out by hand.

use ipfix_wire::{HEADER_LENGTH, Header};
use recording_resumption::{
    EarlierReading, EarlierSession, LastMessage, domains_left, go_on, resumed,
};
use std::alloc::{AllocError, Global};

// Messages of domain 1 (RFC 7011, section 3.1): template 256, of protocolIdentifier alone; two records, with sequence
// number 0; and one record, with sequence number 5. The export times are 1, 2 and 3. Then 9 octets of a header.
const COUNTED: &[u8] = b"\
    \x00\x0a\x00\x1c\0\0\0\x01\0\0\0\0\0\0\0\x01\x00\x02\x00\x0c\x01\x00\x00\x01\x00\x04\x00\x01\
    \x00\x0a\x00\x16\0\0\0\x02\0\0\0\0\0\0\0\x01\x01\x00\x00\x06\x06\x11\
    \x00\x0a\x00\x15\0\0\0\x03\0\0\0\x05\0\0\0\x01\x01\x00\x00\x05\x06\
    \x00\x0a\x00\x16\0\0\0\0\0";

// A message whose body is no set.
const FAULTY: &[u8] = b"\x00\x0a\x00\x12\0\0\0\x04\0\0\0\x06\0\0\0\x01d1";

// The length of its first two messages.
const FIRST_TWO: usize = 50;

// Reads a file in these pieces.
fn read(alloc: Global, pieces: &[&[u8]]) -> Result<EarlierSession, AllocError> {
    let mut reading = EarlierReading::new(alloc);
    for piece in pieces {
        reading.read(alloc, *piece)?;
    }
    Ok(reading.finish())
}

// The header of a datagram of domain 1.
fn header(sequence: u32, export_time: u32) -> Header {
    Header {
        length: HEADER_LENGTH as u16,
        export_time,
        sequence,
        domain: 1,
    }
}

// How many templates are in force in a domain.
fn templates(session: &EarlierSession, domain: u32) -> Option<usize> {
    let domains = session.full.domains.as_ref()?;
    let templates = domains.templates(domain)?;
    Some(templates.len())
}

#[test]
fn the_last_message_of_a_domain_is_kept(rt: HostRuntime) -> Result<(), AllocError> {
    let (front, back) = COUNTED.split_at(FIRST_TWO - 1);
    let session = read(rt.alloc(), &[front, back])?;
    let last = LastMessage {
        sequence: 5,
        due: Some(6),
        export_time: 3,
    };
    assert!(rt; session.last.get(&1).copied() == Some(last));
    assert!(rt; session.last.get(&2).is_none());
    assert!(rt; templates(&session, 1) == Some(1));
    Ok(())
}

#[test]
fn a_fault_leaves_no_template(rt: HostRuntime) -> Result<(), AllocError> {
    let (front, back) = COUNTED.split_at(FIRST_TWO);
    let session = read(rt.alloc(), &[front, FAULTY, back])?;
    let last = LastMessage {
        sequence: 0,
        due: Some(2),
        export_time: 2,
    };
    assert!(rt; session.last.get(&1).copied() == Some(last));
    assert!(rt; templates(&session, 1).is_none());
    Ok(())
}

// What the file leaves of domain 1 goes on with one datagram, and with no other after that.
#[test]
fn a_domain_goes_on_once(rt: HostRuntime) -> Result<(), AllocError> {
    let mut left = domains_left(rt.alloc(), &read(rt.alloc(), &[COUNTED])?)?;
    let before = header(4, 3);
    let next = header(6, 4);
    assert!(rt; resumed(&left, &before).is_none());
    go_on(&mut left, &before, false)?;
    let found = resumed(&left, &next).map(|domain| (domain.templates.len(), domain.due()));
    assert!(rt; found == Some((1, Some(6))));
    go_on(&mut left, &next, false)?;
    assert!(rt; resumed(&left, &next).is_none());
    assert!(rt; left.is_empty());
    Ok(())
}

#[test]
fn a_faulty_file_leaves_nothing(rt: HostRuntime) -> Result<(), AllocError> {
    let (front, back) = COUNTED.split_at(FIRST_TWO);
    let left = domains_left(rt.alloc(), &read(rt.alloc(), &[front, FAULTY, back])?)?;
    assert!(rt; left.is_empty());
    Ok(())
}
