//! Values as values of JSON (RFC 8259).

ghost use Rattle.std.specs.Prelude.{◌≡◌, OnOk};
ghost use Rattle.ipfix_elements.specs.JsonValues.{in_quotes, json_value};
ghost use Rattle.ipfix_elements.specs.Writers.{Writes};
ghost use Rattle.element_values.specs.FieldTexts.{digits_by, element_json, misfit_text};

use crate::instants::{read_micros, read_nanos};
use crate::numbers::{read_boolean, read_signed};
use crate::strings::{read_string, write_json_string};
use crate::text::{boolean_text, write_misfit, write_number};
use element_registry::ElementKind;
use ipfix_elements::{Cell, EXACT_LIMIT, Kind, read_cell, write_cell};
use itoa::Integer;
use std::io;
use std::io::Write;

/// Writes the value of a field as a value of JSON: true or false, a number, or a string; numbers of
/// 2^53 and more, addresses, and octets that are no value of the kind are strings. An `Err` is the
/// writer's.
pub fn write_json_value<W: Write>(kind: ElementKind, octets: &[u8], out: &mut W) -> io::Result<()>
    ensures { OnOk result (Writes W.contents out.old out.new (element_json kind octets.now)) }
{
    match kind {
        ElementKind::Plain(kind) => write_plain(kind, octets, out),
        ElementKind::Boolean => match read_boolean(octets) {
            Some(value) => out.write_all(boolean_text(value).as_bytes()),
            None => write_misfit_string(octets, out),
        },
        ElementKind::Signed(width) => match read_signed(width, octets) {
            Some(number) => write_json_number(number.unsigned_abs() < EXACT_LIMIT, number, out),
            None => write_misfit_string(octets, out),
        },
        ElementKind::Micros => match read_micros(octets) {
            Some(number) => write_json_number(number < EXACT_LIMIT, number, out),
            None => write_misfit_string(octets, out),
        },
        ElementKind::Nanos => match read_nanos(octets) {
            Some(number) => write_json_number(number < EXACT_LIMIT, number, out),
            None => write_misfit_string(octets, out),
        },
        ElementKind::Text => match read_string(octets) {
            Some(text) => write_json_string(text, out),
            None => write_misfit_string(octets, out),
        },
    }
}

fn write_plain<W: Write>(kind: Kind, octets: &[u8], out: &mut W) -> io::Result<()>
    ensures { OnOk result (Writes W.contents out.old out.new (json_value kind octets.now)) }
{
    match read_cell(kind, octets) {
        Some(Cell::Number(number)) => write_json_number(number < EXACT_LIMIT, number, out),
        Some(address) => {
            out.write_all(b"\"")?;
            write_cell(&address, out)?;
            out.write_all(b"\"")
        }
        None => {
            out.write_all(b"\"")?;
            ipfix_elements::write_value(kind, octets, out)?;
            out.write_all(b"\"")
        }
    }
}

// Writes a number as it is if every reader holds it exactly, and else between quotation marks.
fn write_json_number<I: Integer, W: Write>(exact: bool, number: I, out: &mut W) -> io::Result<()>
    ensures { OnOk result
        (Writes W.contents out.old out.new (digits_by exact (I.text number))) }
{
    if exact {
        return write_number(number, out);
    }
    out.write_all(b"\"")?;
    write_number(number, out)?;
    out.write_all(b"\"")
}

fn write_misfit_string<W: Write>(octets: &[u8], out: &mut W) -> io::Result<()>
    ensures { OnOk result
        (Writes W.contents out.old out.new (in_quotes (misfit_text octets.now))) }
{
    out.write_all(b"\"")?;
    write_misfit(octets, out)?;
    out.write_all(b"\"")
}
