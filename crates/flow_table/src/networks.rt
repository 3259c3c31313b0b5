//! The networks of addresses: their first bits, and 0 for the others.

ghost use Rattle.std.specs.Prelude.{◌≡◌, ◌*◌, ◌/◌, ◌^◌};
ghost use Rattle.ipfix_elements.specs.declared.cell.Cell.TheVariants as cells;
ghost use Rattle.flow_table.specs.Networks.{masked_ipv6};
ghost use Rattle.flow_table.specs.Reading.{projected};

use ipfix_elements::{Cell, mask};

/// A cell with an address's first bits alone, if there is a prefix; other cells as they are.
pub fn project(prefix: Option<u8>, cell: Cell) -> Cell
    ensures { result ≡ projected prefix cell }
{
    match cell {
        Cell::Ipv4(address) => Cell::Ipv4(ipv4_network(prefix, address)),
        Cell::Ipv6(address) => Cell::Ipv6(ipv6_network(prefix, address)),
        Cell::Number(_) | Cell::Mac(_) => cell,
    }
}

/// An IPv4 address with its prefix alone, if there is one.
pub fn ipv4_network(prefix: Option<u8>, address: [u8; 4]) -> [u8; 4]
    ensures { cells.Ipv4 result ≡ projected prefix (cells.Ipv4 address) }
{
    match prefix {
        Some(bits) => mask(address, bits.min(32)),
        None => address,
    }
}

/// An IPv6 address with its prefix alone, if there is one.
pub fn ipv6_network(prefix: Option<u8>, address: [u8; 16]) -> [u8; 16]
    ensures { cells.Ipv6 result ≡ projected prefix (cells.Ipv6 address) }
{
    match prefix {
        Some(bits) => mask_ipv6(address, bits),
        None => address,
    }
}

// An IPv6 address with its first bits, all of them from 128 on, and 0 for the others.
fn mask_ipv6(address: [u8; 16], bits: u8) -> [u8; 16]
    ensures { result ≡ masked_ipv6 address bits }
{
    let dropped = u32::from(128u8.saturating_sub(bits));
    let number = u128::from_be_bytes(address);
    without_last(number, dropped).to_be_bytes()
}

// A number whose last bits are 0, so many of them.
#[tactic(auto, using(crate::proofs::Masks::shifted_back, crate::proofs::Masks::nothing_left))]
fn without_last(number: u128, bits: u32) -> u128
    ensures { result ≡ number / 2 ^ bits * 2 ^ bits }
{
    if bits < 128 {
        number >> bits << bits
    } else {
        0
    }
}
