//! Numbers in fields (RFC 7011, sections 6.1.1, 6.1.7, 6.1.8 and 6.2).

ghost use Rattle.std.specs.Prelude.{◌≡◌, ◌<◌, ◌≤◌, length};
ghost use Rattle.byteorder.specs.Endian.{big_number};
ghost use Rattle.ipfix_elements.specs.Values.{number_in, is_number_length as is_length};

use crate::kind::Kind;
use byteorder::{BigEndian, ByteOrder};

// Whether so many octets are a number of the kind.
fn is_number_length(kind: Kind, length: usize) -> bool
    ensures { result ≡ is_length kind length }
{
    match kind {
        Kind::Unsigned(width) => 0 < length && length <= width.octets(),
        Kind::Seconds => length == 4,
        Kind::Millis => length == 8,
        Kind::Ipv4 | Kind::Ipv6 | Kind::Mac | Kind::Octets => false,
    }
}

/// The number that the octets of a field are: an unsigned number in 1 octet up to its full width,
/// seconds in 4, milliseconds in 8. `None` for other lengths, and for a kind that is no number.
pub fn read_number(kind: Kind, octets: &[u8]) -> Option<u64>
    ensures { result ≡ number_in kind octets.now }
{
    if !is_number_length(kind, octets.len()) {
        return None;
    }
    Some(whole_number(octets))
}

// The number that 1 to 8 octets are. The lengths that most have are read in one step, the others copied.
// (A call: where it stands in line, what reads a record for the dump takes a quarter more time.)
#[inline(never)]
fn whole_number(octets: &[u8]) -> u64
    requires some { 0 < length octets.now }
    requires few { length octets.now ≤ 8 }
    ensures { result ≡ big_number (length octets.now) octets.now }
{
    match octets.len() {
        1 => u64::from(octets[0]),
        2 => u64::from(BigEndian::read_u16(octets)),
        4 => u64::from(BigEndian::read_u32(octets)),
        8 => BigEndian::read_u64(octets),
        length => BigEndian::read_uint(octets, length),
    }
}
