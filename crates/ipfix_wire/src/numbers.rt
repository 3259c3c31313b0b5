//! Big-endian numbers at a place (RFC 7011, section 6.1.1).

ghost use Rattle.std.specs.Prelude.{◌≡◌, ◌+◌, ◌≤◌, length};
ghost use Rattle.ipfix_wire.specs.Numbers.{number_at};

use byteorder::{BigEndian, ByteOrder};

#[tactic(auto, using(std::proofs::lemmas::List::take_rest))]
pub fn u16_at(octets: &[u8], at: usize) -> u16
    requires { at + 2 ≤ length octets.now }
    ensures { result ≡ number_at at 2 octets.now }
{
    BigEndian::read_u16(&octets[at..])
}

#[tactic(auto, using(std::proofs::lemmas::List::take_rest))]
pub fn u32_at(octets: &[u8], at: usize) -> u32
    requires { at + 4 ≤ length octets.now }
    ensures { result ≡ number_at at 4 octets.now }
{
    BigEndian::read_u32(&octets[at..])
}
