//! The cells of a key as texts show them.

ghost use Rattle.std.specs.Prelude.{◌≡◌};
ghost use Rattle.ipfix_elements.specs.declared.cell.Cell.TheVariants as cells;
ghost use Rattle.flow_export.specs.Shown.{shown_cell as shown, unmapped as unmapped_in};

use flow_table::{EXPORTER, Key};
use ipfix_elements::Cell;

/// The first 12 octets of an address of IPv4 that is mapped into IPv6 (RFC 4291, section 2.5.5.2).
const MAPPED_PREFIX: [u8; 12] = [0, 0, 0, 0, 0, 0, 0, 0, 0, 0, 255, 255];

/// A cell of a key as texts show it: an exporter's address as that of IPv4, if it has one mapped, and every other cell
/// as it is.
#[inline]
pub fn shown_cell(key: &Key, cell: Cell) -> Cell
    ensures { result ≡ shown key.now cell }
{
    match cell {
        Cell::Ipv6(address) => shown_address(key, address),
        Cell::Number(_) | Cell::Ipv4(_) | Cell::Mac(_) => cell,
    }
}

fn shown_address(key: &Key, address: [u8; 16]) -> Cell
    ensures { result ≡ shown key.now (cells.Ipv6 address) }
{
    if key.element == EXPORTER {
        unmapped(address)
    } else {
        Cell::Ipv6(address)
    }
}

// An address of 16 octets, that of IPv4 if it has one mapped.
fn unmapped(address: [u8; 16]) -> Cell
    ensures { result ≡ unmapped_in address }
{
    if address.starts_with(&MAPPED_PREFIX) {
        let [_, _, _, _, _, _, _, _, _, _, _, _, a, b, c, d] = address;
        Cell::Ipv4([a, b, c, d])
    } else {
        Cell::Ipv6(address)
    }
}
