//! Datagrams that go on after a file, and others.

use ipfix_wire::{HEADER_LENGTH, Header};
use recording_resumption::{Earlier, LastMessage};

// A message with sequence number 10 and two records.
const LAST: LastMessage = LastMessage {
    sequence: 10,
    due: Some(12),
    export_time: 1_700_000_000,
};

// The header of a datagram of domain 1.
fn header(sequence: u32, export_time: u32) -> Header {
    Header {
        length: HEADER_LENGTH as u16,
        export_time,
        sequence,
        domain: 1,
    }
}

#[test]
fn a_datagram_goes_on_by_its_number_and_its_time(rt: HostRuntime) {
    let unknown = LastMessage { due: None, ..LAST };
    let wraps = LastMessage {
        sequence: u32::MAX,
        due: Some(1),
        ..LAST
    };
    for (last, sequence, export_time, goes_on) in [
        (LAST, 12, 1_700_000_000, true),
        (LAST, 10, 1_700_000_000, true),
        (LAST, 9, 1_700_000_000, false),
        (LAST, 12, 1_699_999_999, false),
        (LAST, 65_548, 1_700_000_001, true),
        (LAST, 65_549, 1_700_000_001, false),
        (unknown, 65_546, 1_700_000_000, true),
        (unknown, 65_547, 1_700_000_000, false),
        (wraps, 0, 1_700_000_000, true),
        (wraps, u32::MAX - 1, 1_700_000_000, false),
    ] {
        assert!(rt;
            last.goes_on(&header(sequence, export_time)) == goes_on,
            "{sequence}"
        );
    }
}

// What becomes of the templates after datagrams: their numbers, and whether they define a template.
fn after(datagrams: &[(u32, bool)]) -> Earlier {
    let mut earlier = Earlier::new(LAST);
    for (sequence, defines) in datagrams {
        earlier = earlier.after(&header(*sequence, LAST.export_time), *defines);
    }
    earlier
}

#[test]
fn one_datagram_that_does_not_go_on_loses_nothing(rt: HostRuntime) {
    assert!(rt; after(&[(12, false)]) == Earlier::Resumed);
    assert!(rt; after(&[(12, true)]) == Earlier::Resumed);
    assert!(rt; after(&[(3, false), (12, false)]) == Earlier::Resumed);
    assert!(rt; after(&[(3, true), (12, false)]) == Earlier::Ended);
    assert!(rt; after(&[(3, false), (4, false), (12, false)]) == Earlier::Ended);
    assert!(rt; after(&[(12, false), (3, false), (4, true)]) == Earlier::Resumed);
}
