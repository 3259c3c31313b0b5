//! The numbers of addresses where prefixes are close together, or far apart.

use crate::numbers::assert_number;
use network_prefixes::AddressBits;
use prefix_numbers::{PrefixMap, read_prefix_map};
use std::alloc::Global;
use std::fmt::Write;
use std::process::Abort;

// The map of other rows and of 200 networks with numbers from 1 on, each of 16 addresses: of each 256 from
// 10.20.0.0 on those from the 16th on.
fn ipv4_map(alloc: Global, others: &str) -> Option<PrefixMap> {
    let mut text = String::new(alloc);
    text.push_str(others).ok()?;
    for place in 0..200u32 {
        writeln!(text, "10.20.{place}.16/28,{}", place + 1).ok()?;
    }
    read_prefix_map(alloc, text.as_bytes()).ok()
}

// The same of 200 networks 2001:db8:0:N::10/124, with the number N, from 1 on.
fn ipv6_map(alloc: Global, others: &str) -> Option<PrefixMap> {
    let mut text = String::new(alloc);
    text.push_str(others).ok()?;
    for number in 1..201u32 {
        writeln!(text, "2001:db8:0:{number:x}::10/124,{number}").ok()?;
    }
    read_prefix_map(alloc, text.as_bytes()).ok()
}

// That the first and the last address of a network of 16 have its number, and those beside it another.
fn assert_network(rt: &impl Abort, map: &PrefixMap, width: u8, before: u128, numbers: (u32, u32)) {
    let (number, other) = numbers;
    for (after, is) in [(0u8, other), (1, number), (16, number), (17, other)] {
        let bits = before.wrapping_add(u128::from(after));
        assert_eq!(rt;
            map.number_of(AddressBits { width, bits }),
            is,
            "{before:x} and {after}"
        );
    }
}

#[test]
fn close_networks_of_ipv4(rt: HostRuntime) {
    let far = "0.0.0.0/0,1000\n192.168.0.0/16,1001\n255.255.255.255,1002\n";
    for (others, other) in [("", 0u32), (far, 1000)] {
        let map = ipv4_map(rt.alloc(), others);
        assert!(rt; map.is_some());
        if let Some(map) = map {
            for place in 0..200u32 {
                let before = 0x0a14_000f + u128::from(place) * 256;
                assert_network(&rt, &map, 32, before, (place + 1, other));
            }
        }
    }
}

#[test]
fn close_networks_of_ipv6(rt: HostRuntime) {
    let far = "::/0,1000\nfe80::/10,1001\n";
    for (others, other) in [("", 0u32), (far, 1000)] {
        let map = ipv6_map(rt.alloc(), others);
        assert!(rt; map.is_some());
        if let Some(map) = map {
            for number in 1..201u32 {
                let before = 0x2001_0db8_0000_0000_0000_0000_0000_000f + (u128::from(number) << 64);
                assert_network(&rt, &map, 128, before, (number, other));
            }
        }
    }
}

#[test]
fn one_network(rt: HostRuntime) {
    let alloc = rt.alloc();
    let one = "198.51.100.0/24,5\n";
    assert_number(&rt, alloc, one, "0.0.0.0", 0);
    assert_number(&rt, alloc, one, "198.51.99.255", 0);
    assert_number(&rt, alloc, one, "::ffff:198.51.100.0", 5);
    assert_number(&rt, alloc, one, "198.51.100.255", 5);
    assert_number(&rt, alloc, one, "198.51.101.0", 0);
    assert_number(&rt, alloc, one, "255.255.255.255", 0);
    assert_number(&rt, alloc, one, "::198.51.100.0", 0);
}

#[test]
fn networks_far_apart(rt: HostRuntime) {
    let alloc = rt.alloc();
    let two = "10.0.0.0/8,1\n203.0.113.0/24,2\nfc00::/7,3\n2001:db8::1,4\n2001:db8::3,5\n";
    assert_number(&rt, alloc, two, "9.255.255.255", 0);
    assert_number(&rt, alloc, two, "10.0.0.0", 1);
    assert_number(&rt, alloc, two, "10.255.255.255", 1);
    assert_number(&rt, alloc, two, "11.0.0.0", 0);
    assert_number(&rt, alloc, two, "203.0.113.0", 2);
    assert_number(&rt, alloc, two, "203.0.114.0", 0);
    assert_number(&rt, alloc, two, "2001:db8::", 0);
    assert_number(&rt, alloc, two, "2001:db8::1", 4);
    assert_number(&rt, alloc, two, "2001:db8::2", 0);
    assert_number(&rt, alloc, two, "2001:db8::3", 5);
    assert_number(
        &rt,
        alloc,
        two,
        "fdff:ffff:ffff:ffff:ffff:ffff:ffff:ffff",
        3,
    );
    assert_number(&rt, alloc, two, "fe00::", 0);
}
