//! Numbers and values as text, appended to a line.

ghost use Rattle.std.specs.Prelude.{◌≡◌, ◌++◌, IfSome, OnOk};
ghost use Rattle.ipfix_elements.specs.JsonValues.{json_cell};
ghost use Rattle.ipfix_elements.specs.Texts.{cell_text};
ghost use Rattle.element_values.specs.FieldTexts.{element_json, element_text};
ghost use Rattle.ipfix_dump.specs.DumpLines.{labelled};

use crate::line_octets::LineOctets;
use element_registry::ElementKind;
use element_values::{write_json_value, write_value};
use ipfix_elements::{Cell, EXACT_LIMIT, read_cell};
use itoa::Buffer;
use std::alloc::AllocError;

/// Appends a label and a number in decimal.
pub fn append_labelled(label: &str, number: u32, out: &mut Vec<u8>) -> Result<(), AllocError>
    ensures { OnOk result (out.new.items ≡ out.old.items ++ labelled label.now number) }
{
    out.extend_from_slice(label.as_bytes())?;
    let mut buffer = Buffer::new();
    out.extend_from_slice(buffer.format(number).as_bytes())
}

/// Appends the value of a field.
#[tactic(auto, unfolding(ipfix_elements::specs::Texts::cell_text))]
pub fn append_value(
    kind: ElementKind,
    octets: &[u8],
    out: &mut LineOctets,
) -> Result<(), AllocError>
    ensures { OnOk result (out.new ≡ out.old ++ element_text kind octets.now) }
{
    match cell_of(kind, octets) {
        Some(Cell::Number(number)) => out.append_number(number),
        Some(Cell::Ipv4(address)) => out.append_ipv4(&address),
        // A line fails only because memory ran out.
        _ => write_value(kind, octets, out).map_err(|_| AllocError),
    }
}

/// Appends the value of a field as a value of JSON.
#[tactic(auto, unfolding(ipfix_elements::specs::Texts::cell_text))]
pub fn append_json_value(
    kind: ElementKind,
    octets: &[u8],
    out: &mut LineOctets,
) -> Result<(), AllocError>
    ensures { OnOk result (out.new ≡ out.old ++ element_json kind octets.now) }
{
    match cell_of(kind, octets) {
        Some(Cell::Number(number)) if number < EXACT_LIMIT => out.append_number(number),
        Some(Cell::Ipv4(address)) => {
            out.append(b"\"")?;
            out.append_ipv4(&address)?;
            out.append(b"\"")
        }
        _ => write_json_value(kind, octets, out).map_err(|_| AllocError),
    }
}

// The number or address that the octets of a plain kind are. (Numbers and IPv4 addresses go past the functions
// for values of any kind: an `io::Result` has 96 octets, which are copied where a call answers one.)
#[inline(always)]
fn cell_of(kind: ElementKind, octets: &[u8]) -> Option<Cell>
    ensures text { IfSome result (λ cell. element_text kind octets.now ≡ cell_text cell) }
    ensures json { IfSome result (λ cell. element_json kind octets.now ≡ json_cell cell) }
{
    match kind {
        ElementKind::Plain(kind) => read_cell(kind, octets),
        _ => None,
    }
}
