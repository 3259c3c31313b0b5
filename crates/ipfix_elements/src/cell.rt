//! Values that can be compared: numbers and addresses.

ghost use Rattle.std.specs.Prelude.{◌≡◌, ◌++◌, ◌<◌, ◌^◌, OnOk, OnErr};
ghost use Rattle.byteorder.specs.Endian.{big_bytes};
ghost use Rattle.ipfix_elements.specs.Values.{cell_in};
ghost use Rattle.ipfix_elements.specs.Cells.{cell_octets, FitsWidth};

use crate::kind::Kind;
use crate::number::read_number;
use std::alloc::AllocError;

/// The value of a field that is a number or an address. Cells are ordered by variant, then by
/// value.
#[derive(Clone, Copy, Debug, PartialEq, Eq, PartialOrd, Ord)]
pub enum Cell {
    /// A number, or a time in the unit of its kind.
    Number(u64),
    /// An IPv4 address.
    Ipv4([u8; 4]),
    /// An IPv6 address.
    Ipv6([u8; 16]),
    /// An IEEE 802 MAC address.
    Mac([u8; 6]),
}

/// The value that the octets of a field are. `None` if `read_number` gives none, for an address of
/// another length than its kind has, and for `Octets`.
pub fn read_cell(kind: Kind, octets: &[u8]) -> Option<Cell>
    ensures { result ≡ cell_in kind octets.now }
{
    match kind {
        Kind::Ipv4 => <[u8; 4]>::try_from(octets).ok().map(Cell::Ipv4),
        Kind::Ipv6 => <[u8; 16]>::try_from(octets).ok().map(Cell::Ipv6),
        Kind::Mac => <[u8; 6]>::try_from(octets).ok().map(Cell::Mac),
        Kind::Octets => None,
        Kind::Unsigned(_) | Kind::Seconds | Kind::Millis => {
            read_number(kind, octets).map(Cell::Number)
        }
    }
}

/// Appends a number in `width` octets, the highest first, or an address whole (RFC 7011, section
/// 6.1). An `Err` changes nothing.
pub fn write_cell_octets(cell: &Cell, width: u16, out: &mut Vec<u8>) -> Result<(), AllocError>
    requires { FitsWidth cell.now width }
    ensures ok { OnOk result (out.new.items ≡ out.old.items ++ cell_octets cell.now width) }
    ensures err { OnErr result (out.new.items ≡ out.old.items) }
{
    match cell {
        Cell::Number(n) => write_number(*n, width, out),
        Cell::Ipv4(address) => out.extend_from_slice(address),
        Cell::Ipv6(address) => out.extend_from_slice(address),
        Cell::Mac(address) => out.extend_from_slice(address),
    }
}

// Appends the number in so many octets, with zeros before its 8 if it is to have more.
fn write_number(number: u64, width: u16, out: &mut Vec<u8>) -> Result<(), AllocError>
    requires { number < 256 ^ width }
    ensures ok { OnOk result (out.new.items ≡ out.old.items ++ big_bytes width number) }
    ensures err { OnErr result (out.new.items ≡ out.old.items) }
{
    let octets = number.to_be_bytes();
    let width = usize::from(width);
    if width <= 8 {
        return out.extend_from_slice(&octets[8 - width..]);
    }
    let start = out.len();
    out.resize(start + width - 8, 0)?;
    match out.extend_from_slice(&octets) {
        Ok(()) => Ok(()),
        Err(error) => {
            out.truncate(start);
            Err(error)
        }
    }
}
