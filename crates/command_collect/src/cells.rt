//! Cells of a row on lines of standard error, as tables in CSV show them.

ghost use Rattle.std.specs.Prelude.{◌++◌};
ghost use Rattle.ipfix_elements.specs.Texts.{cell_text, ipv4_text, ipv6_text, mac_text, octet_text};
ghost use Rattle.report_writing.specs.Writing.{Tells};

use ipfix_elements::Cell;
use report_writing::WriteLines;
use std::io;

const DIGITS: &[u8; 16] = b"0123456789abcdef";

/// Writes the text of a cell.
#[tactic(auto, unfolding(ipfix_elements::specs::Texts::cell_text))]
pub fn write_cell<W: WriteLines>(cell: &Cell, out: &mut W) -> io::Result<()>
    ensures { Tells W.lines out.old out.new result (cell_text cell.now) }
{
    match cell {
        Cell::Number(number) => write!(out, "{number}"),
        Cell::Ipv4(address) => write_ipv4(address, out),
        Cell::Ipv6(address) => write_ipv6(address, out),
        Cell::Mac(address) => write_mac(address, out),
    }
}

// Four decimal numbers joined by dots.
fn write_ipv4<W: WriteLines>(address: &[u8; 4], out: &mut W) -> io::Result<()>
    ensures { Tells W.lines out.old out.new result (ipv4_text address.now) }
{
    let first = address[0];
    let second = address[1];
    let third = address[2];
    let fourth = address[3];
    write!(out, "{first}.{second}.{third}.{fourth}")
}

// Eight groups of four hexadecimal digits joined by colons.
fn write_ipv6<W: WriteLines>(address: &[u8; 16], out: &mut W) -> io::Result<()>
    ensures { Tells W.lines out.old out.new result (ipv6_text address.now) }
{
    write_octet(address[0], out)?;
    write_octet(address[1], out)?;
    for group in 1..8 {
        out.write_all(b":")?;
        write_octet(address[2 * group], out)?;
        write_octet(address[2 * group + 1], out)?;
    }
    Ok(())
}

// Six groups of two hexadecimal digits joined by colons.
fn write_mac<W: WriteLines>(address: &[u8; 6], out: &mut W) -> io::Result<()>
    ensures { Tells W.lines out.old out.new result (mac_text address.now) }
{
    write_octet(address[0], out)?;
    for group in 1..6 {
        out.write_all(b":")?;
        write_octet(address[group], out)?;
    }
    Ok(())
}

// Two lower-case hexadecimal digits.
#[tactic(auto, unfolding(hex::specs::Hex::encode_with))]
fn write_octet<W: WriteLines>(octet: u8, out: &mut W) -> io::Result<()>
    ensures { Tells W.lines out.old out.new result (octet_text octet) }
{
    let high = DIGITS[usize::from(octet / 16)];
    let low = DIGITS[usize::from(octet % 16)];
    out.write_all(&[high, low])
}
