//! Texts that a file gives, as a terminal may show them.

ghost use Rattle.std.specs.Prelude.{◌≡◌};
ghost use Rattle.std.specs.List.{flat_map};
ghost use Rattle.report_writing.specs.Quoting.{is_plain as is_plain_octet, octet_shown, quoted, text_shown};
ghost use Rattle.report_writing.specs.Writing.{Tells};

use crate::write_lines::WriteLines;
use std::io;

/// The most octets that are shown of a name that a file gives.
const MOST_SHOWN: usize = 64;

/// Writes a text that a file gives between quotation marks, so that a terminal is safe.
pub fn write_quoted<W: WriteLines>(text: &str, out: &mut W) -> io::Result<()>
    ensures { Tells W.lines out.old out.new result (quoted text.now) }
{
    write!(out, "\"")?;
    write_shown(text.as_bytes(), out)?;
    write!(out, "\"")
}

fn write_shown<W: WriteLines>(text: &[u8], out: &mut W) -> io::Result<()>
    ensures { Tells W.lines out.old out.new result (text_shown text.now) }
{
    if text.len() > MOST_SHOWN {
        write_octets(&text[..MOST_SHOWN], out)?;
        write!(out, "..")
    } else {
        write_octets(text, out)
    }
}

/// Writes octets, each that is no plain character as its number.
pub fn write_octets<W: WriteLines>(octets: &[u8], out: &mut W) -> io::Result<()>
    ensures { Tells W.lines out.old out.new result (flat_map octet_shown octets.now) }
{
    for octet in octets {
        write_octet(*octet, out)?;
    }
    Ok(())
}

#[tactic(auto, using(std::proofs::lemmas::Fmt::hex_byte))]
fn write_octet<W: WriteLines>(octet: u8, out: &mut W) -> io::Result<()>
    ensures { Tells W.lines out.old out.new result (octet_shown octet) }
{
    if is_plain(octet) {
        out.write_all(&[octet])
    } else {
        write!(out, "\\x{octet:02x}")
    }
}

fn is_plain(octet: u8) -> bool
    ensures { result ≡ is_plain_octet octet }
{
    octet >= 32 && octet < 127 && octet != b'"' && octet != b'\\'
}
