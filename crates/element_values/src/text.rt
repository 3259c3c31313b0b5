//! Values as text.

ghost use Rattle.std.specs.Prelude.{◌≡◌, OnOk};
ghost use Rattle.ipfix_elements.specs.Writers.{Writes};
ghost use Rattle.element_values.specs.FieldTexts.{boolean_text as text_of, misfit_text, element_text};

use crate::instants::{read_micros, read_nanos};
use crate::numbers::{read_boolean, read_signed};
use crate::strings::{read_string, write_quoted};
use element_registry::ElementKind;
use ipfix_elements::Kind;
use itoa::{Buffer, Integer};
use std::io;
use std::io::Write;

/// Writes the value of a field: true or false, a number with its sign, a time in decimal, a string
/// between quotation marks, in which what doesn't print is escaped, and what is built in as
/// [`ipfix_elements::write_value`] does. Octets that are no value of the kind are written as `?0x` and
/// two hexadecimal digits each. An `Err` is the writer's.
pub fn write_value<W: Write>(kind: ElementKind, octets: &[u8], out: &mut W) -> io::Result<()>
    ensures { OnOk result (Writes W.contents out.old out.new (element_text kind octets.now)) }
{
    match kind {
        ElementKind::Plain(kind) => ipfix_elements::write_value(kind, octets, out),
        ElementKind::Boolean => match read_boolean(octets) {
            Some(value) => out.write_all(boolean_text(value).as_bytes()),
            None => write_misfit(octets, out),
        },
        ElementKind::Signed(width) => match read_signed(width, octets) {
            Some(number) => write_number(number, out),
            None => write_misfit(octets, out),
        },
        ElementKind::Micros => match read_micros(octets) {
            Some(number) => write_number(number, out),
            None => write_misfit(octets, out),
        },
        ElementKind::Nanos => match read_nanos(octets) {
            Some(number) => write_number(number, out),
            None => write_misfit(octets, out),
        },
        ElementKind::Text => match read_string(octets) {
            Some(text) => write_quoted(text, out),
            None => write_misfit(octets, out),
        },
    }
}

/// The word of a truth value.
pub fn boolean_text(value: bool) -> &'static str
    ensures { result.now ≡ text_of value }
{
    if value { "true" } else { "false" }
}

/// Writes a number in decimal. An `Err` is the writer's.
pub fn write_number<I: Integer, W: Write>(number: I, out: &mut W) -> io::Result<()>
    ensures { OnOk result (Writes W.contents out.old out.new (I.text number)) }
{
    out.write_all(Buffer::new().format(number).as_bytes())
}

/// Writes octets that are no value of their kind. An `Err` is the writer's.
pub fn write_misfit<W: Write>(octets: &[u8], out: &mut W) -> io::Result<()>
    ensures { OnOk result (Writes W.contents out.old out.new (misfit_text octets.now)) }
{
    out.write_all(b"?")?;
    ipfix_elements::write_value(Kind::Octets, octets, out)
}
