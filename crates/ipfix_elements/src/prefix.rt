//! Prefixes of IPv4 addresses.

ghost use Rattle.std.specs.Prelude.{◌≡◌, ◌<◌, ◌≤◌, ℕ, nat_lt, if◌then◌else◌};
ghost use Rattle.ipfix_elements.specs.Prefixes.{address_bit, masked};

use byteorder::{BigEndian, ByteOrder};

/// The address with its first `bits` bits, at most 32, and 0 for the others.
pub fn mask(address: [u8; 4], bits: u8) -> [u8; 4]
    requires { bits ≤ 32 }
    ensures bit { (i : ℕ) → i < 32
        → address_bit result i ≡ (if nat_lt i bits then address_bit address i else 0) }
    ensures exact { result ≡ masked address bits }
{
    let dropped = 32 - u32::from(bits);
    let number = u64::from(BigEndian::read_u32(&address));
    let kept = number >> dropped << dropped;
    (kept as u32).to_be_bytes()
}
