//! Values as text.

ghost use Rattle.std.specs.Prelude.{◌≡◌, ◌+◌, ◌≤◌, ◌++◌, length, OnOk};
ghost use Rattle.std.specs.Fmt.{decimal};
ghost use Rattle.arrayvec.specs.ArrayVec.{array_vec_len};
ghost use Rattle.hex.specs.Hex.{encode_lower};
ghost use Rattle.ipfix_elements.specs.Texts.{octet_text, ipv4_text as dotted, ipv6_text as groups_of_four, mac_text as groups_of_two, cell_text, hex_mark as mark_of, value_text};
ghost use Rattle.ipfix_elements.specs.Writers.{Writes};

use crate::cell::{Cell, read_cell};
use crate::kind::Kind;
use arrayvec::ArrayVec;
use itoa::Buffer;
use std::io;
use std::io::Write;

const DIGITS: &[u8; 16] = b"0123456789abcdef";

/// The octets that are made into text at a time.
const PIECE: usize = 64;

/// Writes the value of a field: a number or a time in decimal, an address in its usual form, octets
/// as `0x` and two hexadecimal digits each, and octets that are no value of the kind as `?0x` and
/// the digits. An `Err` is the writer's.
pub fn write_value<W: Write>(kind: Kind, octets: &[u8], out: &mut W) -> io::Result<()>
    ensures { OnOk result (Writes W.contents out.old out.new (value_text kind octets.now)) }
{
    match read_cell(kind, octets) {
        Some(cell) => write_cell(&cell, out),
        None => write_hex(hex_mark(kind), octets, out),
    }
}

/// Writes what `write_value` writes for the same value. An `Err` is the writer's.
#[tactic(auto, unfolding(crate::specs::Texts::cell_text))]
pub fn write_cell<W: Write>(cell: &Cell, out: &mut W) -> io::Result<()>
    ensures { OnOk result (Writes W.contents out.old out.new (cell_text cell.now)) }
{
    match cell {
        Cell::Number(number) => out.write_all(Buffer::new().format(*number).as_bytes()),
        Cell::Ipv4(address) => out.write_all(ipv4_text(address).as_slice()),
        Cell::Ipv6(address) => out.write_all(ipv6_text(address).as_slice()),
        Cell::Mac(address) => out.write_all(mac_text(address).as_slice()),
    }
}

// What stands before the digits of octets.
fn hex_mark(kind: Kind) -> &'static str
    ensures { result.now ≡ mark_of kind }
{
    match kind {
        Kind::Octets => "0x",
        Kind::Unsigned(_) | Kind::Ipv4 | Kind::Ipv6 | Kind::Mac | Kind::Seconds | Kind::Millis => {
            "?0x"
        }
    }
}

// Four decimal numbers joined by dots.
fn ipv4_text(address: &[u8; 4]) -> ArrayVec<u8, 15>
    ensures { result.items ≡ dotted address.now }
{
    let mut text = ArrayVec::new();
    push_decimal(&mut text, address[0]);
    text.push(b'.');
    push_decimal(&mut text, address[1]);
    text.push(b'.');
    push_decimal(&mut text, address[2]);
    text.push(b'.');
    push_decimal(&mut text, address[3]);
    text
}

// Appends an octet in decimal.
#[inline(always)]
fn push_decimal(text: &mut ArrayVec<u8, 15>, octet: u8)
    requires { array_vec_len text.old + 3 ≤ 15 }
    ensures items { text.new.items ≡ text.old.items ++ decimal octet }
    ensures len { array_vec_len text.new ≤ array_vec_len text.old + 3 }
{
    if octet < 10 {
        text.push(b'0' + octet);
    } else if octet < 100 {
        text.push(b'0' + octet / 10);
        text.push(b'0' + octet % 10);
    } else {
        text.push(b'0' + octet / 100);
        text.push(b'0' + octet / 10 % 10);
        text.push(b'0' + octet % 10);
    }
}

// Eight groups of four hexadecimal digits joined by colons.
fn ipv6_text(address: &[u8; 16]) -> ArrayVec<u8, 39>
    ensures { result.items ≡ groups_of_four address.now }
{
    let mut text = ArrayVec::new();
    push_octet(&mut text, address[0]);
    push_octet(&mut text, address[1]);
    for group in 1..8 {
        text.push(b':');
        push_octet(&mut text, address[2 * group]);
        push_octet(&mut text, address[2 * group + 1]);
    }
    text
}

// Six groups of two hexadecimal digits joined by colons.
fn mac_text(address: &[u8; 6]) -> ArrayVec<u8, 17>
    ensures { result.items ≡ groups_of_two address.now }
{
    let mut text = ArrayVec::new();
    push_octet(&mut text, address[0]);
    for group in 1..6 {
        text.push(b':');
        push_octet(&mut text, address[group]);
    }
    text
}

// Appends two lower-case hexadecimal digits.
#[tactic(auto, unfolding(hex::specs::Hex::encode_with))]
fn push_octet<const N: usize>(text: &mut ArrayVec<u8, N>, octet: u8)
    requires { array_vec_len text.old + 2 ≤ N }
    ensures items { text.new.items ≡ text.old.items ++ octet_text octet }
    ensures len { array_vec_len text.new ≡ array_vec_len text.old + 2 }
{
    text.push(DIGITS[usize::from(octet / 16)]);
    text.push(DIGITS[usize::from(octet % 16)]);
}

// Writes a mark, and then each octet as two lower-case hexadecimal digits.
fn write_hex<W: Write>(mark: &str, octets: &[u8], out: &mut W) -> io::Result<()>
    ensures { OnOk result
        (Writes W.contents out.old out.new (mark.now ++ encode_lower octets.now)) }
{
    out.write_all(mark.as_bytes())?;
    let mut rest = octets;
    while !rest.is_empty() {
        let (piece, more) = rest.split_at(rest.len().min(PIECE));
        write_piece(piece, out)?;
        rest = more;
    }
    Ok(())
}

fn write_piece<W: Write>(piece: &[u8], out: &mut W) -> io::Result<()>
    requires { length piece.now ≤ PIECE }
    ensures { OnOk result (Writes W.contents out.old out.new (encode_lower piece.now)) }
{
    let mut digits = [0; 128];
    let end = 2 * piece.len();
    hex::encode_to_slice(piece, &mut digits[..end]).unwrap();
    out.write_all(&digits[..end])
}
