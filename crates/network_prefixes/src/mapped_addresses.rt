//! The addresses of peers.

ghost use Rattle.network_prefixes.specs.PeerAddresses.{IsPeerAddress};

use std::net::{IpAddr, SocketAddr};

/// The address of a peer as it is told: the IPv4 address and the port if that is mapped into IPv6 (RFC 4291, section
/// 2.5.5.2), as of peers of a socket that takes both; and any other as it is.
pub fn peer_address(address: SocketAddr) -> SocketAddr
    ensures { IsPeerAddress address result }
{
    let SocketAddr::V6(over_ipv6) = address else {
        return address;
    };
    match over_ipv6.ip().to_ipv4_mapped() {
        Some(mapped) => SocketAddr::new(IpAddr::V4(mapped), over_ipv6.port()),
        None => address,
    }
}
