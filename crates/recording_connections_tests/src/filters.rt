//! Which peers may send.

use network_prefixes::{PeerFilter, Prefix, PrefixFault, peer_address};
use std::alloc::Global;
use std::net::{IpAddr, SocketAddr};
use std::test::*;

// A filter of these words; those that are no prefix are left out.
fn filter_of(alloc: Global, words: &[&str]) -> Result<PeerFilter, Fail> {
    let mut prefixes = Vec::new(alloc);
    for word in words {
        if let Ok(prefix) = Prefix::parse(*word) {
            prefixes.push(prefix)?;
        }
    }
    Ok(PeerFilter { prefixes })
}

// Whether the peer of this text may send; no if it is no address.
fn may_send(filter: &PeerFilter, peer: &str) -> bool {
    match peer.parse::<IpAddr>() {
        Ok(address) => filter.lets_in(address),
        Err(_) => false,
    }
}

#[test]
fn peers_of_a_prefix(rt: HostRuntime) -> Result<(), Fail> {
    let alloc: Global = rt.alloc();
    for (word, inside, outside) in [
        ("192.0.2.0/24", "192.0.2.255", "192.0.3.0"),
        ("192.0.2.0/25", "192.0.2.127", "192.0.2.128"),
        ("192.0.2.1", "192.0.2.1", "192.0.2.0"),
        ("0.0.0.0/0", "203.0.113.9", "::1"),
        ("2001:db8::/32", "2001:db8:ffff::1", "2001:db9::"),
        ("::ffff:192.0.2.1", "192.0.2.1", "::192.0.2.1"),
        ("192.0.2.0/24", "::ffff:192.0.2.7", "::ffff:192.0.3.7"),
    ] {
        let filter = filter_of(alloc, &[word])?;
        assert!(rt; may_send(&filter, inside), "{word} {inside}");
        assert!(rt; !may_send(&filter, outside), "{word} {outside}");
    }
    Ok(())
}

#[test]
fn several_prefixes_and_none(rt: HostRuntime) -> Result<(), Fail> {
    let alloc: Global = rt.alloc();
    let two = filter_of(alloc, &["192.0.2.0/24", "::1"])?;
    assert!(rt; may_send(&two, "::1"));
    assert!(rt; may_send(&two, "192.0.2.9"));
    assert!(rt; !may_send(&two, "198.51.100.1"));
    assert!(rt; may_send(&filter_of(alloc, &[])?, "198.51.100.1"));
    for word in [
        "",
        "host",
        "192.0.2.0/33",
        "192.0.2.1/33",
        "192.0.2.0/024",
        "192.0.2.1/024",
        "::/129",
    ] {
        assert_eq!(rt; Prefix::parse(word), Err(PrefixFault::NotAPrefix), "{word}");
    }
    for word in [
        "192.0.2.1/24",
        "128.0.0.0/0",
        "2001:db8::1/127",
        "::ffff:192.0.2.1/31",
    ] {
        assert_eq!(rt; Prefix::parse(word), Err(PrefixFault::BitsAfter), "{word}");
    }
    Ok(())
}

#[test]
fn addresses_of_peers(rt: HostRuntime) -> Result<(), Fail> {
    for (text, told) in [
        ("[::ffff:192.0.2.1]:4739", "192.0.2.1:4739"),
        ("192.0.2.1:4739", "192.0.2.1:4739"),
        ("[::192.0.2.1]:4739", "[::192.0.2.1]:4739"),
        ("[fe80::1%3]:4739", "[fe80::1%3]:4739"),
    ] {
        let (Ok(address), Ok(told)) = (text.parse::<SocketAddr>(), told.parse::<SocketAddr>())
        else {
            return Err(Fail::new("no address"));
        };
        assert_eq!(rt; peer_address(address), told, "{text}");
    }
    Ok(())
}
