//! Datagrams of an exporter of one domain, whose sequence numbers count data records (RFC 7011, section 3.1).

use ipfix_wire::{Header, write_header, write_set};
use std::alloc::{AllocError, Global};

// The export time of the first datagrams.
const FIRST: u32 = 1_700_000_000;

// A datagram with an export time, a sequence number and one set.
fn message(
    alloc: Global,
    export_time: u32,
    sequence: u32,
    set_id: u16,
    body: &[u8; 8],
) -> Result<Vec<u8>, AllocError> {
    let header = Header {
        length: 28,
        export_time,
        sequence,
        domain: 1,
    };
    let mut octets = Vec::new(alloc);
    write_header(&header, &mut octets)?;
    write_set(set_id, 8, &mut octets)?;
    octets.extend_from_slice(body)?;
    Ok(octets)
}

/// One with template 256 only: an address, in so many octets.
pub fn template(alloc: Global, sequence: u32, length: u8) -> Result<Vec<u8>, AllocError> {
    template_after(alloc, 0, sequence, length)
}

/// The same, sent so many seconds after the first datagrams.
pub fn template_after(
    alloc: Global,
    seconds: u32,
    sequence: u32,
    length: u8,
) -> Result<Vec<u8>, AllocError> {
    let body = [0x01, 0x00, 0x00, 0x01, 0x00, 0x08, 0x00, length];
    message(alloc, FIRST.saturating_add(seconds), sequence, 2, &body)
}

/// One with two data records of template 256.
pub fn two_records(alloc: Global, sequence: u32) -> Result<Vec<u8>, AllocError> {
    message(alloc, FIRST, sequence, 256, &[192, 0, 2, 1, 192, 0, 2, 2])
}
