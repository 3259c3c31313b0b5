//! Reading a file of elements.

ghost use Rattle.std.specs.Prelude.{◌≡◌};
ghost use Rattle.csv.specs.Records.{fields_of};
ghost use Rattle.element_registry.specs.Faults.{Gives};
ghost use Rattle.element_registry.specs.Files.{GivesAt, IsOfBody, IsOfRows, IsOfText, fault_line, unknown_line, with_row, with_rows};

use crate::added::Added;
use crate::columns::{Columns, read_heading};
use crate::elements::Elements;
use crate::fault::{ElementsError, ElementsFault, Heading};
use crate::row::{has_unknown_type, read_entry};
use crate::rows::{Row, line_at, read_rows};
use csv::ByteRecord;
use std::alloc::Global;

/// Adds what a file says of elements, in the form of IANA's registry ("IPFIX Information Elements") as
/// comma-separated values. Its first line names the columns: `ElementID`, `Name` and `Abstract Data Type`; there may be `Enterprise`,
/// without which all are IANA's, and `Data Type Semantics`; others are passed over, and so are the rows without a
/// type, and those of built-in elements. An `Err` is the first row that has a fault, and its first one, in the order
/// of [`ElementsFault`]; `OutOfMemory` may come in place of any.
#[tactic(auto, using(crate::proofs::Steps::of_rows))]
pub fn add_file(alloc: Global, elements: Elements, text: &[u8]) -> Result<Added, ElementsError>
    ensures { IsOfText elements text.now result }
{
    match read_rows(alloc, text) {
        Ok(rows) => add_read(alloc, elements, text, &rows),
        Err(fault) => Err(ElementsError::at(0, fault)),
    }
}

#[tactic(auto, using(crate::proofs::Steps::heading_fails, crate::proofs::Steps::of_body))]
fn add_read(
    alloc: Global,
    elements: Elements,
    text: &[u8],
    rows: &[Row],
) -> Result<Added, ElementsError>
    ensures { IsOfRows text.now elements rows.now result }
{
    let [heading, rows @ ..] = rows else {
        return Err(ElementsError::at(1, ElementsFault::Column(Heading::Number)));
    };
    match read_heading(&heading.record) {
        Ok(columns) => add_rows(alloc, elements, text, &columns, rows),
        Err(fault) => Err(ElementsError::at(1, fault)),
    }
}

fn add_rows(
    alloc: Global,
    elements: Elements,
    text: &[u8],
    columns: &Columns,
    rows: &[Row],
) -> Result<Added, ElementsError>
    ensures { IsOfBody text.now columns.now elements rows.now result }
{
    let unknown_type = first_unknown(text, columns, rows);
    let elements = with_all(alloc, elements, text, columns, rows)?;
    Ok(Added {
        elements,
        unknown_type,
    })
}

fn with_all(
    alloc: Global,
    mut elements: Elements,
    text: &[u8],
    columns: &Columns,
    mut rows: &[Row],
) -> Result<Elements, ElementsError>
    ensures { GivesAt result (with_rows columns.now elements rows.entry.now)
        (fault_line text.now columns.now elements rows.entry.now) }
{
    while let [row, rest @ ..] = rows {
        if let Err(fault) = add_row(alloc, &mut elements, columns, &row.record) {
            return Err(ElementsError::at(line_at(text, row.place), fault));
        }
        rows = rest;
    }
    Ok(elements)
}

#[tactic(auto, using(crate::proofs::Steps::entry_fails, crate::proofs::Steps::entry_given))]
fn add_row(
    alloc: Global,
    elements: &mut Elements,
    columns: &Columns,
    row: &ByteRecord,
) -> Result<(), ElementsFault>
    ensures { Gives (λ _. elements.new) result
        (with_row columns.now elements.old (fields_of row.now)) }
{
    match read_entry(alloc, columns, row)? {
        Some(entry) => elements.add(entry),
        None => Ok(()),
    }
}

// The line of the first row with a type that is not known.
fn first_unknown(text: &[u8], columns: &Columns, mut rows: &[Row]) -> Option<u64>
    ensures { result ≡ unknown_line text.now columns.now rows.entry.now }
{
    while let [row, rest @ ..] = rows {
        if has_unknown_type(columns, &row.record) {
            return Some(line_at(text, row.place));
        }
        rows = rest;
    }
    None
}
