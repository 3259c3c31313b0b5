//! Reading a text of rows.

ghost use Rattle.std.specs.Prelude.{◌≡◌, ◌≤◌, length, map, IfOk, IfErr};
ghost use Rattle.std.specs.Str.Lines.{lines};
ghost use Rattle.prefix_numbers.specs.Maps.{IsMapError, IsMapOf};
ghost use Rattle.prefix_numbers.specs.Reads.{ReadsLines};
ghost use Rattle.prefix_numbers.specs.Texts as texts;

use crate::error::{MapError, MapFault};
use crate::prefix_map::PrefixMap;
use crate::row::NumberedPrefix;
use crate::row_keys::RowKeys;
use std::alloc::{AllocError, Global};
use std::str;

/// As many rows a map has at most.
pub const MAX_ROWS: usize = 1_000_000;

/// The map of a text of rows `PREFIX,NUMBER`, one a line, without a heading: a prefix of IPv4 or IPv6, as
/// `192.0.2.0/24`, or an address, which is a prefix of all of its bits; a comma; and a number from 0 to
/// 4294967295, decimal, without a sign or leading zeros. Lines that are empty or begin with `#` are passed
/// over. A prefix of an IPv4-mapped IPv6 address counts as one of the IPv4 address in it.
///
/// A text that is not UTF-8 has the fault `NotUtf8`. Otherwise the fault is that of the first line that has
/// one: `NoPrefix`, `BitsAfter`, `NoNumber`, `PrefixTwice` or `TooMany`, the first of these that it has.
/// `OutOfMemory` may come in place of any.
pub fn read_prefix_map(alloc: Global, octets: &[u8]) -> Result<PrefixMap, MapError>
    ensures ok { IfOk result (IsMapOf octets.now) }
    ensures fault { IfErr result (IsMapError octets.now) }
{
    match str::from_utf8(octets) {
        Ok(text) => {
            let rows = read_text(alloc, text)?;
            Ok(PrefixMap::of_rows(alloc, rows)?)
        }
        Err(error) => Err(MapError {
            fault: MapFault::NotUtf8,
            line: line_at(octets, error.valid_up_to()),
        }),
    }
}

fn read_text(alloc: Global, text: &str) -> Result<Vec<NumberedPrefix>, MapError>
    ensures { ReadsLines (lines text.now) result }
{
    match lines_of(alloc, text) {
        Ok(lines) => read_lines(alloc, &lines),
        Err(_) => Err(MapError {
            fault: MapFault::OutOfMemory,
            line: 0,
        }),
    }
}

fn lines_of(alloc: Global, text: &str) -> Result<Vec<&str>, AllocError>
    ensures { IfOk result (λ found. map (λ line. line.now) found.items ≡ lines text.now) }
{
    text.lines().collect(alloc)
}

fn read_lines(alloc: Global, lines: &[&str]) -> Result<Vec<NumberedPrefix>, MapError>
    ensures { ReadsLines (map (λ line. line.now) lines.now) result }
{
    let mut read = RowKeys::new(alloc);
    for (place, line) in lines.iter().enumerate() {
        if let Err(fault) = read.add_line(line) {
            return Err(MapError {
                fault,
                line: place as u64 + 1,
            });
        }
    }
    Ok(read.rows)
}

// The line in which a place of a text is, from 1.
fn line_at(octets: &[u8], place: usize) -> u64
    requires { place ≤ length octets.now }
    ensures { result ≡ texts.line_at octets.now place }
{
    octets[..place]
        .iter()
        .filter(|octet| **octet == b'\n')
        .count() as u64
        + 1
}
