//! Why a text gives no map, and where.

use prefix_numbers::{MapError, MapFault, read_prefix_map};
use std::alloc::Global;
use std::process::Abort;

// The fault of a text, if it has one.
fn error_of(alloc: Global, octets: &[u8]) -> Option<MapError> {
    match read_prefix_map(alloc, octets) {
        Ok(_) => None,
        Err(error) => Some(error),
    }
}

// That a text has this fault, in this line.
fn assert_error(rt: &impl Abort, alloc: Global, octets: &[u8], line: u64, fault: MapFault) {
    let error = error_of(alloc, octets);
    assert_eq!(rt; error, Some(MapError { fault, line }));
}

#[test]
fn a_row_begins_with_a_prefix(rt: HostRuntime) {
    let alloc = rt.alloc();
    assert_error(&rt, alloc, b"# a\n\nprefix,1\n", 3, MapFault::NoPrefix);
    assert_error(&rt, alloc, b"192.0.2.0/33,1\n", 1, MapFault::NoPrefix);
    assert_error(&rt, alloc, b" \n", 1, MapFault::NoPrefix);
    assert_error(
        &rt,
        alloc,
        b"192.0.2.1,1\n192.0.2.1/24,1\n",
        2,
        MapFault::BitsAfter,
    );
}

#[test]
fn a_number_follows(rt: HostRuntime) {
    let alloc = rt.alloc();
    assert_error(&rt, alloc, b"192.0.2.0/24", 1, MapFault::NoNumber);
    assert_error(
        &rt,
        alloc,
        b"192.0.2.0/24,4294967296\n",
        1,
        MapFault::NoNumber,
    );
    assert_error(&rt, alloc, b"192.0.2.0/24,07\n", 1, MapFault::NoNumber);
    assert_error(&rt, alloc, b"192.0.2.0/24,7,8\n", 1, MapFault::NoNumber);
}

#[test]
fn a_prefix_stands_once(rt: HostRuntime) {
    let alloc = rt.alloc();
    let twice = b"192.0.2.0/24,1\n192.0.2.0/25,2\n\n192.0.2.0/24,3\n";
    assert_error(&rt, alloc, twice, 4, MapFault::PrefixTwice);
    let mapped = b"192.0.2.1,1\n::ffff:192.0.2.1,1\n";
    assert_error(&rt, alloc, mapped, 2, MapFault::PrefixTwice);
    let first = b"::/0,1\n::/0,1\nprefix,1\n";
    assert_error(&rt, alloc, first, 2, MapFault::PrefixTwice);
}

#[test]
fn a_text_is_utf8(rt: HostRuntime) {
    let alloc = rt.alloc();
    assert_error(&rt, alloc, b"prefix,1\n# \xff\n", 2, MapFault::NotUtf8);
}
