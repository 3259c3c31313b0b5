//! Strings (RFC 7011, section 6.1.6), written so that none of their octets can do anything to a terminal.

ghost use Rattle.std.specs.Prelude.{◌≡◌, ◌++◌, OnOk, option_map, codes};
ghost use Rattle.std.specs.Str.{chars};
ghost use Rattle.std.specs.List.{flat_map};
ghost use Rattle.ipfix_elements.specs.Texts.{octet_text};
ghost use Rattle.ipfix_elements.specs.Writers.{Writes};
ghost use Rattle.element_values.specs.Strings.{escaped_char, escaped_octet, escaped_unit, is_plain as is_plain_in, json_string, quoted_text, string_in, without_zeros as trimmed};

use std::io::Write;
use std::{io, str};

/// The string in a field, without the zeros at its end; `None` if that isn't UTF-8.
pub fn read_string(octets: &[u8]) -> Option<&str>
    ensures { option_map (λ text. text.now) result ≡ string_in octets.now }
{
    match str::from_utf8(without_zeros(octets)) {
        Ok(text) => Some(text),
        Err(_) => None,
    }
}

// What stands before the zeros at the end.
fn without_zeros(octets: &[u8]) -> &[u8]
    ensures { result.now ≡ trimmed octets.now }
{
    let mut rest = octets;
    while let [front @ .., 0] = rest {
        rest = front;
    }
    rest
}

/// Writes a string between quotation marks: printing ASCII as it is, but for the quotation mark and
/// the backslash, and each other octet as `\x` and two hexadecimal digits. An `Err` is the writer's.
pub fn write_quoted<W: Write>(text: &str, out: &mut W) -> io::Result<()>
    ensures { OnOk result (Writes W.contents out.old out.new (quoted_text text.now)) }
{
    out.write_all(b"\"")?;
    for octet in text.as_bytes() {
        write_octet(*octet, out)?;
    }
    out.write_all(b"\"")
}

fn write_octet<W: Write>(octet: u8, out: &mut W) -> io::Result<()>
    ensures { OnOk result (Writes W.contents out.old out.new (escaped_octet octet)) }
{
    if is_plain(u16::from(octet)) {
        out.write_all(&[octet])
    } else {
        out.write_all(b"\\x")?;
        write_digits(octet, out)
    }
}

/// Writes a string of JSON (RFC 8259, section 7): printing ASCII as it is, but for the quotation mark
/// and the backslash, and each other character as its units of UTF-16. An `Err` is the writer's.
pub fn write_json_string<W: Write>(text: &str, out: &mut W) -> io::Result<()>
    ensures { OnOk result (Writes W.contents out.old out.new (json_string text.now)) }
{
    out.write_all(b"\"")?;
    write_chars(text, out)?;
    out.write_all(b"\"")
}

fn write_chars<W: Write>(text: &str, out: &mut W) -> io::Result<()>
    ensures { OnOk result
        (Writes W.contents out.old out.new (flat_map escaped_char (chars text.now))) }
{
    for character in text.chars() {
        write_char(character, out)?;
    }
    Ok(())
}

fn write_char<W: Write>(character: char, out: &mut W) -> io::Result<()>
    ensures { OnOk result (Writes W.contents out.old out.new (escaped_char character)) }
{
    let mut buffer = [0; 2];
    write_units(character.encode_utf16(&mut buffer), out)
}

fn write_units<W: Write>(units: &[u16], out: &mut W) -> io::Result<()>
    ensures { OnOk result
        (Writes W.contents out.old out.new (flat_map escaped_unit units.now)) }
{
    for unit in units {
        write_unit(*unit, out)?;
    }
    Ok(())
}

#[tactic(auto, unfolding(hex::specs::Hex::encode_with))]
fn write_unit<W: Write>(unit: u16, out: &mut W) -> io::Result<()>
    ensures { OnOk result (Writes W.contents out.old out.new (escaped_unit unit)) }
{
    let [high, low] = unit.to_be_bytes();
    if is_plain(unit) {
        out.write_all(&[low])
    } else {
        out.write_all(b"\\u")?;
        write_digits(high, out)?;
        write_digits(low, out)
    }
}

// What is written as it is.
fn is_plain(unit: u16) -> bool
    ensures { result ≡ is_plain_in unit }
{
    32 <= unit && unit <= 126 && unit != 34 && unit != 92
}

fn write_digits<W: Write>(octet: u8, out: &mut W) -> io::Result<()>
    ensures { OnOk result (Writes W.contents out.old out.new (octet_text octet)) }
{
    let mut digits = [0; 2];
    hex::encode_to_slice([octet].as_slice(), &mut digits).unwrap();
    out.write_all(&digits)
}
