//! The names in a folder, with values worked out by `date -u` and by hand.

use recording_names::{
    Transport, period_name, period_of, read_session_name, read_unfinished_name, session_name,
};
use std::net::{IpAddr, Ipv4Addr, Ipv6Addr, SocketAddr};

#[test]
fn periods_are_named_in_utc(rt: HostRuntime) {
    for (second, name) in [
        (0, "1970-01-01/000000"),
        (951_782_399, "2000-02-28/235500"),
        (951_782_400, "2000-02-29/000000"),
        (1_795_613_836, "2026-11-25/133500"),
        (u64::MAX, "9999-12-31/235500"),
    ] {
        let named = period_name(rt.alloc(), period_of(second, 300));
        assert!(rt;
            matches!(&named, Ok(text) if text.as_str() == name),
            "{second}"
        );
    }
}

#[test]
fn sessions_are_named_by_peer_and_number(rt: HostRuntime) {
    let documentation = Ipv6Addr::new(0x2001, 0xdb8, 0, 0, 0, 0, 0, 1);
    let mapped = Ipv6Addr::new(0, 0, 0, 0, 0, 0xffff, 0xc000, 0x201);
    let usual = Ipv4Addr::new(192, 0, 2, 1);
    for (ip, transport, name) in [
        (
            IpAddr::V4(usual),
            Transport::Connection,
            "192.0.2.1-40012-7",
        ),
        (
            IpAddr::V4(usual),
            Transport::Datagrams,
            "192.0.2.1-40012-u7",
        ),
        (
            IpAddr::V6(documentation),
            Transport::Connection,
            "2001-db8-0-0-0-0-0-1-40012-7",
        ),
        (
            IpAddr::V6(mapped),
            Transport::Datagrams,
            "192.0.2.1-40012-u7",
        ),
    ] {
        let named = session_name(rt.alloc(), SocketAddr::new(ip, 40012), transport, 7);
        assert!(rt;
            matches!(&named, Ok(text) if text.as_str() == name),
            "{name}"
        );
        let told = read_session_name(name);
        assert!(rt;
            matches!(told, Some(told) if told.transport == transport
            && told.port == 40012 && told.number == 7),
            "{name}"
        );
    }
}

#[test]
fn names_of_unfinished_files_are_read(rt: HostRuntime) {
    let told = read_unfinished_name("1795613700-192.0.2.1-40012-7");
    assert!(rt;
        matches!(told, Some(told) if told.period.begins == 1_795_613_700
        && told.session == "192.0.2.1-40012-7")
    );
    for name in [
        "",
        "1",
        "-x",
        "01-x",
        "+1-x",
        "x-1",
        "253402300800-x",
        "18446744073709551616-x",
    ] {
        assert!(rt; read_unfinished_name(name).is_none(), "{name}");
    }
}

#[test]
fn names_of_other_files_are_none_of_sessions(rt: HostRuntime) {
    let told = read_session_name("2001-db8-0-0-0-0-0-1-40012-u7");
    assert!(rt; matches!(told, Some(told) if told.address == "2001-db8-0-0-0-0-0-1"));
    for name in [
        "",
        "40012-7",
        "a-40012-v7",
        "a-40012-uu7",
        "a-40012-u",
        "a-40012-07",
        "a-65536-7",
        "a-40012-18446744073709551616",
    ] {
        assert!(rt; read_session_name(name).is_none(), "{name}");
    }
}
