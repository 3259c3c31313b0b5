//! Why texts make no condition, and which texts say nothing.

use flow_filter::{Condition, FilterFault, MAX_TEXTS, Side, ValueRange};
use ipfix_elements::{Kind, Width};
use ipfix_wire::ElementId;
use std::alloc::{AllocError, Global};
use std::test::*;

const PORT: Kind = Kind::Unsigned(Width::Two);

// The fault of a condition of these texts, if there is one.
fn fault_of(alloc: Global, kind: Kind, texts: &[&str]) -> Option<FilterFault> {
    match Condition::new(alloc, ElementId::iana(7), kind, Side::In, texts) {
        Ok(_) => None,
        Err(fault) => Some(fault),
    }
}

#[test]
fn the_first_fault(rt: HostRuntime) -> Result<(), Fail> {
    let alloc = rt.alloc();
    let kinds = [
        fault_of(alloc, Kind::Octets, &[]),
        fault_of(alloc, Kind::Mac, &["9-2"]),
    ];
    let most = ["9"; MAX_TEXTS];
    let too_many = ["9-2"; MAX_TEXTS + 1];
    let counts = [
        fault_of(alloc, PORT, &[]),
        fault_of(alloc, PORT, &most),
        fault_of(alloc, PORT, &too_many),
    ];
    let text = fault_of(alloc, PORT, &["80", "9-2", "x"]);
    let count = Some(FilterFault::Count);
    assert_eq!(rt;
        (kinds, counts, text),
        (
            [Some(FilterFault::Kind); 2],
            [count, None, count],
            Some(FilterFault::Text { place: 1 })
        )
    );
    Ok(())
}

#[test]
fn texts_that_say_no_number(rt: HostRuntime) -> Result<(), Fail> {
    for text in [
        "",
        "-",
        "9-",
        "-9",
        "9-2",
        "1-2-3",
        "+1",
        "01",
        "1 ",
        "0x1",
        "192.0.2.0/24",
        "192.0.2.1",
        "18446744073709551616",
    ] {
        assert_eq!(rt; ValueRange::read(PORT, text), None, "{text}");
    }
    let all = ValueRange::Numbers {
        first: 0,
        last: u64::MAX,
    };
    assert_eq!(rt; ValueRange::read(PORT, "0-18446744073709551615"), Some(all));
    Ok(())
}

#[test]
fn texts_that_say_no_address(rt: HostRuntime) -> Result<(), Fail> {
    for text in [
        "",
        "80",
        "192.0.2.1/24",
        "192.0.2.0/33",
        "192.0.2.0/024",
        "192.0.2.0/",
        "2001:db8::1/32",
    ] {
        assert_eq!(rt; ValueRange::read(Kind::Ipv4, text), None, "{text}");
        assert_eq!(rt; ValueRange::read(Kind::Ipv6, text), None, "{text}");
    }
    assert_eq!(rt; ValueRange::read(Kind::Ipv4, "2001:db8::/32"), None);
    assert!(rt; ValueRange::read(Kind::Ipv6, "2001:db8::/32").is_some());
    assert!(rt; ValueRange::read(Kind::Ipv6, "192.0.2.0/24").is_some());
    Ok(())
}

#[test]
fn a_refused_allocation(rt: HostRuntime) -> Result<(), Fail> {
    assert_eq!(rt; FilterFault::from(AllocError), FilterFault::OutOfMemory);
    Ok(())
}
