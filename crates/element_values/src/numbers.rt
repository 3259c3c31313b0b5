//! Boolean and signed values (RFC 7011, sections 6.1.1, 6.1.5 and 6.2).

ghost use Rattle.std.specs.Prelude.{◌≡◌};
ghost use Rattle.element_values.specs.Numbers.{boolean_in, signed_in};

use byteorder::{BigEndian, ByteOrder};
use ipfix_elements::Width;

/// Whether octets are true or false, if they are one of the two.
pub fn read_boolean(octets: &[u8]) -> Option<bool>
    ensures { result ≡ boolean_in octets.now }
{
    match octets {
        [1] => Some(true),
        [2] => Some(false),
        _ => None,
    }
}

/// The number in two's complement that octets are, in the full width or in fewer.
pub fn read_signed(width: Width, octets: &[u8]) -> Option<i64>
    ensures { result ≡ signed_in width octets.now }
{
    if octets.is_empty() || octets.len() > width.octets() {
        return None;
    }
    Some(BigEndian::read_int(octets, octets.len()))
}
