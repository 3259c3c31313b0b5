//! The bits of addresses.

ghost use Rattle.std.specs.Prelude.{◌≡◌, ◌↔◌, ◌*◌, ◌/◌, ◌^◌, IsTrue};
ghost use Rattle.network_prefixes.specs.Addresses.{address_bits, bits_behind, EndsBehind, first_bits};

use std::net::IpAddr;

/// An address as a number of so many bits, 32 for IPv4 and 128 for IPv6.
#[derive(Clone, Copy, Debug, PartialEq, Eq)]
pub struct AddressBits {
    pub width: u8,
    /// Its octets, the first the highest.
    pub bits: u128,
}

impl AddressBits {
    /// The bits of an address. An IPv4-mapped IPv6 address (RFC 4291, section 2.5.5.2) has those of the
    /// IPv4 address in it.
    pub fn of(address: IpAddr) -> AddressBits
        ensures { result ≡ address_bits address }
    {
        match address {
            IpAddr::V4(address) => AddressBits {
                width: 32,
                bits: u128::from(address.to_bits()),
            },
            IpAddr::V6(address) => match address.to_ipv4_mapped() {
                Some(mapped) => AddressBits {
                    width: 32,
                    bits: u128::from(mapped.to_bits()),
                },
                None => AddressBits {
                    width: 128,
                    bits: address.to_bits(),
                },
            },
        }
    }

    /// Its first bits as a number, so many of them.
    pub fn first(self, length: u8) -> u128
        ensures { result ≡ first_bits self length }
    {
        shifted_right(self.bits, self.behind(length))
    }

    /// Whether all bits after the first ones are 0.
    pub fn ends_behind(self, length: u8) -> bool
        ensures { IsTrue result ↔ EndsBehind self length }
    {
        has_zeros_behind(self.bits, self.behind(length))
    }

    // How many bits are after the first ones.
    fn behind(self, length: u8) -> u32
        ensures { result ≡ bits_behind self length }
    {
        u32::from(self.width.saturating_sub(length))
    }
}

// A shift by all bits or more leaves 0.
fn shifted_right(bits: u128, by: u32) -> u128
    ensures { result ≡ bits / 2 ^ by }
{
    bits.checked_shr(by).unwrap_or(0)
}

// Whether the last bits are 0, so many of them.
fn has_zeros_behind(bits: u128, by: u32) -> bool
    ensures { IsTrue result ↔ (bits / 2 ^ by * 2 ^ by ≡ bits) }
{
    shifted_right(bits, by).checked_shl(by).unwrap_or(0) == bits
}
