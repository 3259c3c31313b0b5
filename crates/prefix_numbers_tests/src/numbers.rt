//! The numbers of addresses.

use network_prefixes::AddressBits;
use prefix_numbers::{MapFault, read_prefix_map};
use std::alloc::Global;
use std::net::IpAddr;
use std::process::Abort;

const CUSTOMERS: &str = "# number of each customer
192.0.2.0/24,7
192.0.2.128/25,8

192.0.2.255,9
10.0.0.0/8,0
10.1.0.0/16,3
2001:db8::/32,7
2001:db8:0:1::/64,4294967295
";

// The number of an address by a text of rows, if both are read.
fn number_in(alloc: Global, text: &str, address: &str) -> Option<u32> {
    let Ok(address) = address.parse::<IpAddr>() else {
        return None;
    };
    match read_prefix_map(alloc, text.as_bytes()) {
        Ok(map) => Some(map.number_of(AddressBits::of(address))),
        Err(_) => None,
    }
}

/// That an address has this number.
pub fn assert_number(rt: &impl Abort, alloc: Global, text: &str, address: &str, number: u32) {
    assert_eq!(rt; number_in(alloc, text, address), Some(number));
}

#[test]
fn the_longest_prefix_counts(rt: HostRuntime) {
    let alloc = rt.alloc();
    assert_number(&rt, alloc, CUSTOMERS, "192.0.2.127", 7);
    assert_number(&rt, alloc, CUSTOMERS, "192.0.2.254", 8);
    assert_number(&rt, alloc, CUSTOMERS, "192.0.2.255", 9);
    assert_number(&rt, alloc, CUSTOMERS, "10.1.255.255", 3);
    assert_number(&rt, alloc, CUSTOMERS, "10.2.0.0", 0);
}

#[test]
fn a_prefix_begins_and_ends_at_its_addresses(rt: HostRuntime) {
    let alloc = rt.alloc();
    assert_number(&rt, alloc, CUSTOMERS, "192.0.1.255", 0);
    assert_number(&rt, alloc, CUSTOMERS, "192.0.2.0", 7);
    assert_number(&rt, alloc, CUSTOMERS, "192.0.2.128", 8);
    assert_number(&rt, alloc, CUSTOMERS, "192.0.3.0", 0);
}

#[test]
fn families_are_apart(rt: HostRuntime) {
    let alloc = rt.alloc();
    assert_number(&rt, alloc, CUSTOMERS, "2001:db8::", 7);
    assert_number(&rt, alloc, CUSTOMERS, "2001:db8:0:1:ffff::1", 4_294_967_295);
    assert_number(&rt, alloc, CUSTOMERS, "2001:db8:0:2::", 7);
    assert_number(&rt, alloc, CUSTOMERS, "::192.0.2.1", 0);
    assert_number(&rt, alloc, CUSTOMERS, "::ffff:192.0.2.1", 7);
}

#[test]
fn a_prefix_may_have_all_addresses(rt: HostRuntime) {
    let alloc = rt.alloc();
    let all = "::/0,2\r\n0.0.0.0/0,1\r\n255.255.255.255,3";
    assert_number(&rt, alloc, all, "0.0.0.0", 1);
    assert_number(&rt, alloc, all, "255.255.255.254", 1);
    assert_number(&rt, alloc, all, "255.255.255.255", 3);
    assert_number(
        &rt,
        alloc,
        all,
        "ffff:ffff:ffff:ffff:ffff:ffff:ffff:ffff",
        2,
    );
    assert_number(&rt, alloc, "", "192.0.2.1", 0);
}

#[test]
fn faults_have_numbers_and_names(rt: HostRuntime) {
    let numbers = [MapFault::NotUtf8.number(), MapFault::OutOfMemory.number()];
    let name = MapFault::PrefixTwice.name();
    assert_eq!(rt; (numbers, name), ([2, 8], "PrefixTwice"));
}
