//! The line of an element.

ghost use Rattle.std.specs.Prelude.{◌≡◌, [], ◌∷◌, IfOk, OnOk};
ghost use Rattle.ipfix_elements.specs.Names.{numbered_text};
ghost use Rattle.ipfix_elements.specs.Writers.{Writes};
ghost use Rattle.command_elements.specs.Lines.{blanks, column, line_of, uses};
ghost use Rattle.command_elements.specs.Searches.{ShowsTo, seen};

use crate::fitting::fits;
use crate::search::{Listed, Search};
use crate::type_names::type_name;
use element_registry::Elements;
use flow_table::{is_counter, is_key};
use ipfix_wire::ElementId;
use itoa::Buffer;
use std::io::{self, Write};

/// As wide is the column of numbers: enough for an enterprise of five digits.
const NUMBER_WIDTH: usize = 12;

/// As wide is the column of types.
const TYPE_WIDTH: usize = 20;

/// Writes the line of an element, with what it may be in a plan, if the word fits it. Answers whether it does.
#[tactic(auto, using(crate::proofs::Joined::shows_one))]
pub fn write_if_fits<W: Write>(search: &Search, item: &Listed, out: &mut W) -> io::Result<bool>
    ensures { IfOk result (ShowsTo W.contents out.old out.new search.now (seen item.now ∷ [])) }
{
    let found = fits(search.word, item.element, item.name);
    if found {
        write_line(search.elements, item, out)?;
    }
    Ok(found)
}

fn write_line<W: Write>(elements: &Elements, item: &Listed, out: &mut W) -> io::Result<()>
    ensures { OnOk result (Writes W.contents out.old out.new (line_of elements.now (seen item.now))) }
{
    let name = item.name;
    write_numbers(item.element, out)?;
    write_column(type_name(item.kind), TYPE_WIDTH, out)?;
    write!(out, "{name}")?;
    write_uses(elements, item.element, out)?;
    writeln!(out)
}

// Writes what an element may be in a plan.
fn write_uses<W: Write>(elements: &Elements, element: ElementId, out: &mut W) -> io::Result<()>
    ensures { OnOk result (Writes W.contents out.old out.new (uses elements.now element)) }
{
    if is_key(elements, element) {
        write!(out, " key")?;
    }
    if is_counter(elements, element) {
        write!(out, " counter")?;
    }
    Ok(())
}

// Writes the numbers of an element and blanks after them.
fn write_numbers<W: Write>(element: ElementId, out: &mut W) -> io::Result<()>
    ensures { OnOk result (Writes W.contents out.old out.new (column 12 (numbered_text element))) }
{
    let (mut pens, mut numbers) = (Buffer::new(), Buffer::new());
    let (pen, number) = (pens.format(element.pen), numbers.format(element.number));
    write!(out, "e{pen}.{number}")?;
    write_blanks(2 + pen.len() + number.len(), NUMBER_WIDTH, out)
}

// Writes a text and blanks after it.
fn write_column<W: Write>(text: &str, width: usize, out: &mut W) -> io::Result<()>
    ensures { OnOk result (Writes W.contents out.old out.new (column width text.now)) }
{
    write!(out, "{text}")?;
    write_blanks(text.len(), width, out)
}

// Writes blanks after a text of this length, up to a width, and one more.
fn write_blanks<W: Write>(length: usize, width: usize, out: &mut W) -> io::Result<()>
    ensures { OnOk result (Writes W.contents out.old out.new (blanks width length)) }
{
    for _ in 0..width.saturating_sub(length) {
        write!(out, " ")?;
    }
    write!(out, " ")
}
