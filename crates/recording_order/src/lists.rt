//! Lists of datagrams.

ghost use Rattle.std.specs.Prelude.{◌≡◌, ◌<◌, length, nat_le, IfSome};
ghost use Rattle.recording_order.specs.Arrivals as specs;
ghost use Rattle.std.specs.List.{list_any, position_from};

use crate::datagram::Datagram;

/// How many of a domain there are.
pub(crate) fn count_in(datagrams: &[Datagram], domain: u32) -> usize
    ensures { result ≡ specs.count_in domain datagrams.now }
{
    datagrams
        .iter()
        .filter(|datagram| datagram.header().domain == domain)
        .count()
}

/// Whether there is one of a domain.
pub(crate) fn has_one(datagrams: &[Datagram], domain: u32) -> bool
    ensures { result ≡ list_any (specs.is_in domain) datagrams.now }
{
    datagrams
        .iter()
        .any(|datagram| datagram.header().domain == domain)
}

/// Where the first of a domain is.
pub(crate) fn first_in(datagrams: &[Datagram], domain: u32) -> Option<usize>
    ensures value { result ≡ position_from (specs.is_in domain) 0 datagrams.now }
    ensures within { IfSome result (λ index. index < length datagrams.now) }
{
    datagrams
        .iter()
        .position(|datagram| datagram.header().domain == domain)
}

/// Whether one of a domain has these octets.
pub(crate) fn is_among(datagrams: &[Datagram], domain: u32, octets: &[u8]) -> bool
    ensures { result ≡ specs.is_among domain octets.now datagrams.now }
{
    datagrams.iter().any(|datagram| {
        datagram.header().domain == domain && datagram.octets() == octets
    })
}

/// The octets that are left of a room beside datagrams.
pub(crate) fn room_beside(room: usize, datagrams: &[Datagram]) -> usize
    ensures { result ≡ specs.room_beside room datagrams.now }
{
    let mut left = room;
    for datagram in datagrams {
        left = left.saturating_sub(datagram.octets().len());
    }
    left
}

/// Whether datagrams take no more than a room.
pub(crate) fn fits(room: usize, datagrams: &[Datagram]) -> bool
    ensures { result ≡ nat_le (specs.octets_of datagrams.now) room }
{
    let mut left = room;
    for datagram in datagrams {
        match left.checked_sub(datagram.octets().len()) {
            Some(rest) => left = rest,
            None => return false,
        }
    }
    true
}
