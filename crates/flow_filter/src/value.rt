//! The values that conditions compare: numbers and addresses of IP.

ghost use Rattle.std.specs.Prelude.{◌≡◌};
ghost use Rattle.flow_filter.specs.Values as values;

use byteorder::{BigEndian, ByteOrder};
use ipfix_elements::{Kind, read_number};
use network_prefixes::AddressBits;

/// As many addresses of IPv4 there are.
const IPV4_ADDRESSES: u128 = 1 << 32;

/// What is before the address of IPv4 in a mapped one (RFC 4291, section 2.5.5.2).
const MAPPED: u128 = 0xffff;

/// The value of a field as conditions compare it.
#[derive(Clone, Copy, Debug, PartialEq, Eq)]
pub enum Value {
    /// An unsigned number.
    Number(u64),
    /// An address of IPv4 or IPv6. An IPv4-mapped IPv6 address counts as the IPv4 address in it.
    Address(AddressBits),
}

/// Whether fields of a kind have values that conditions compare: unsigned numbers, and addresses of IPv4
/// and IPv6.
pub fn is_comparable(kind: Kind) -> bool
    ensures { result ≡ values.is_comparable kind }
{
    matches!(kind, Kind::Unsigned(_) | Kind::Ipv4 | Kind::Ipv6)
}

/// The value that the octets of a field are: a number in all of its octets or in fewer (RFC 7011, section
/// 6.2), an address in all of them. `None` for other lengths, and for a kind that is not comparable.
#[inline(always)]
pub fn value_in(kind: Kind, octets: &[u8]) -> Option<Value>
    ensures { result ≡ values.value_in kind octets.now }
{
    match kind {
        Kind::Unsigned(_) => Some(Value::Number(read_number(kind, octets)?)),
        Kind::Ipv4 if octets.len() == 4 => Some(Value::Address(AddressBits {
            width: 32,
            bits: u128::from(BigEndian::read_u32(octets)),
        })),
        Kind::Ipv6 if octets.len() == 16 => {
            Some(Value::Address(ipv6_bits(BigEndian::read_u128(octets))))
        }
        Kind::Ipv4 | Kind::Ipv6 | Kind::Mac | Kind::Seconds | Kind::Millis | Kind::Octets => None,
    }
}

// The bits of an IPv6 address, or of the IPv4 address in a mapped one.
fn ipv6_bits(bits: u128) -> AddressBits
    ensures { result ≡ values.ipv6_value bits }
{
    if bits / IPV4_ADDRESSES == MAPPED {
        AddressBits {
            width: 32,
            bits: bits % IPV4_ADDRESSES,
        }
    } else {
        AddressBits { width: 128, bits }
    }
}
