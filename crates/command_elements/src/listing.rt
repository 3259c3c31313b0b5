//! The list of the elements that are known.

ghost use Rattle.std.specs.Prelude.{[], ◌∷◌, IfOk};
ghost use Rattle.command_elements.specs.Listed.{built_in, built_in_at, of_files};
ghost use Rattle.command_elements.specs.Searches.{ShowsAll, ShowsTo};

use crate::lines::write_if_fits;
use crate::search::{Listed, Search};
use element_registry::{ElementKind, Entry};
use ipfix_elements::{kind_of, name_of};
use ipfix_wire::ElementId;
use std::io::{self, Write};

/// The numbers of elements are below this (RFC 7011, section 3.2).
const NUMBER_LIMIT: u16 = 0x8000;

/// Writes a line for each element that is known and that a word fits, as [`fits`](crate::fits) says: the built-in ones
/// by their numbers, and then those of files as they stand there; each with what it may be in a plan, a key or a
/// counter. Answers whether there is any, and flushes the writer.
pub fn list_elements<W: Write>(search: &Search, out: &mut W) -> io::Result<bool>
    ensures { IfOk result (ShowsAll W.contents out.old out.new search.now) }
{
    let is_any = write_listed(search, out)?;
    out.flush()?;
    Ok(is_any)
}

fn write_listed<W: Write>(search: &Search, out: &mut W) -> io::Result<bool>
    ensures { IfOk result (ShowsAll W.contents out.old out.new search.now) }
{
    let is_built_in = write_built_in(search, out)?;
    let is_of_file = write_entries(search, search.elements.entries(), out)?;
    Ok(is_built_in || is_of_file)
}

fn write_built_in<W: Write>(search: &Search, out: &mut W) -> io::Result<bool>
    ensures { IfOk result (ShowsTo W.contents out.old out.new search.now built_in) }
{
    let mut is_any = false;
    for number in 0..NUMBER_LIMIT {
        is_any = write_number(search, number, out)? || is_any;
    }
    Ok(is_any)
}

// Writes the line of a built-in element, if there is one of this number and the word fits it.
fn write_number<W: Write>(search: &Search, number: u16, out: &mut W) -> io::Result<bool>
    ensures { IfOk result
        (ShowsTo W.contents out.old out.new search.now (built_in_at number)) }
{
    let element = ElementId::iana(number);
    match name_of(element) {
        Some(name) => {
            let kind = ElementKind::Plain(kind_of(element));
            write_if_fits(
                search,
                &Listed {
                    element,
                    name,
                    kind,
                },
                out,
            )
        }
        None => Ok(false),
    }
}

fn write_entries<W: Write>(search: &Search, entries: &[Entry], out: &mut W) -> io::Result<bool>
    ensures { IfOk result
        (ShowsTo W.contents out.old out.new search.now (of_files entries.now)) }
{
    let mut is_any = false;
    for entry in entries {
        is_any = write_entry(search, entry, out)? || is_any;
    }
    Ok(is_any)
}

fn write_entry<W: Write>(search: &Search, entry: &Entry, out: &mut W) -> io::Result<bool>
    ensures { IfOk result
        (ShowsTo W.contents out.old out.new search.now (of_files (entry.now ∷ []))) }
{
    write_if_fits(
        search,
        &Listed {
            element: entry.element,
            name: entry.name.as_str(),
            kind: entry.kind,
        },
        out,
    )
}
