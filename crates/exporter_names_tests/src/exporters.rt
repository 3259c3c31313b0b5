//! Exporters that words and names of files tell: addresses for documentation (RFC 5737, RFC 3849).

use exporter_names::{ToldExporter, recorded_exporter};
use std::net::{IpAddr, Ipv4Addr, Ipv6Addr};
use std::test::*;

fn ipv4() -> IpAddr {
    IpAddr::V4(Ipv4Addr::new(192, 0, 2, 7))
}

fn ipv6() -> IpAddr {
    IpAddr::V6(Ipv6Addr::new(0x2001, 0xdb8, 0, 0, 0, 0, 0, 1))
}

// Whether a word tells this address of this file.
fn tells(word: &str, file: &str, address: IpAddr) -> bool {
    match ToldExporter::parse(word) {
        Some(told) => told.file == file && told.address == address,
        None => false,
    }
}

#[test]
fn words_are_cut_at_their_last_sign(rt: HostRuntime) -> Result<(), Fail> {
    assert!(rt; tells("flows.ipfix=192.0.2.7", "flows.ipfix", ipv4()));
    assert!(rt; tells("a=b=2001:db8::1", "a=b", ipv6()));
    assert!(rt; tells("=192.0.2.7", "", ipv4()));
    Ok(())
}

#[test]
fn words_without_an_address_tell_nothing(rt: HostRuntime) -> Result<(), Fail> {
    for word in [
        "",
        "flows.ipfix",
        "flows.ipfix=",
        "flows.ipfix=router",
        "flows.ipfix=192.0.2",
        "192.0.2.7=flows.ipfix",
        "flows.ipfix=192.0.2.7=",
    ] {
        assert!(rt; ToldExporter::parse(word).is_none(), "{word}");
    }
    Ok(())
}

#[test]
fn names_of_recordings_tell_their_peer(rt: HostRuntime) -> Result<(), Fail> {
    for (path, address) in [
        ("192.0.2.7-4739-1.ipfix", ipv4()),
        (
            "recordings/2026-11-25/120000/192.0.2.7-40012-u3.ipfix",
            ipv4(),
        ),
        ("./192.0.2.7-4739-1.2.ipfix", ipv4()),
        ("/2001-db8-0-0-0-0-0-1-4739-u12.ipfix", ipv6()),
    ] {
        let told = recorded_exporter(rt.alloc(), path);
        assert!(rt;
            matches!(told, Ok(Some(found)) if found == address),
            "{path}"
        );
    }
    Ok(())
}

#[test]
fn other_names_tell_nobody(rt: HostRuntime) -> Result<(), Fail> {
    for path in [
        "",
        "-",
        "flows.ipfix",
        "192.0.2.7.ipfix",
        "192.0.2.7-4739.ipfix",
        "192.0.2.7-4739-1.pcap",
        "192.0.2.7-65536-1.ipfix",
        "192.0.2-4739-1.ipfix",
        "router-4739-1.ipfix",
        "192.0.2.7-4739-1.ipfix/flows",
        "1795613700-192.0.2.7-4739-1",
    ] {
        let told = recorded_exporter(rt.alloc(), path);
        assert!(rt; matches!(told, Ok(None)), "{path}");
    }
    Ok(())
}
