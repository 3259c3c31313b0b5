//! The columns of a file.

ghost use Rattle.std.specs.Prelude.{◌≡◌, ◌+◌, map};
ghost use Rattle.csv.specs.Records.{fields_of};
ghost use Rattle.element_registry.specs.Faults.{Gives, column_name};
ghost use Rattle.element_registry.specs.Rows.{columns_in, field as field_in, optional_field as optional_field_in, place_in, required as required_in};

use crate::fault::{ElementsFault, Heading};
use csv::ByteRecord;

/// Where a row has its columns, and how many fields.
#[derive(Clone, Copy)]
pub struct Columns {
    pub enterprise: Option<usize>,
    pub number: usize,
    pub name: usize,
    pub kind: usize,
    pub semantics: Option<usize>,
    pub count: usize,
}

/// The columns by their names in the first line.
#[tactic(auto, using(crate::proofs::Steps::fails_then, crate::proofs::Steps::goes_on))]
pub fn read_heading(heading: &ByteRecord) -> Result<Columns, ElementsFault>
    ensures { Gives (λ at. at) result (columns_in (fields_of heading.now)) }
{
    let number = required(heading, Heading::Number)?;
    let name = required(heading, Heading::Name)?;
    let kind = required(heading, Heading::DataType)?;
    Ok(Columns {
        enterprise: place_of(heading, b"Enterprise"),
        number,
        name,
        kind,
        semantics: place_of(heading, b"Data Type Semantics"),
        count: heading.len(),
    })
}

fn required(heading: &ByteRecord, column: Heading) -> Result<usize, ElementsFault>
    ensures { Gives (λ place. place) result (required_in column (fields_of heading.now)) }
{
    match place_of(heading, column.name().as_bytes()) {
        Some(place) => Ok(place),
        None => Err(ElementsFault::Column(column)),
    }
}

// The place of the first field that says this.
#[tactic(auto, using(crate::proofs::Fields::place_next, crate::proofs::Fields::place_none))]
fn place_of(row: &ByteRecord, text: &[u8]) -> Option<usize>
    ensures { result ≡ place_in text.now (fields_of row.now) }
{
    let mut place = 0;
    while let Some(field) = row.get(place) {
        if field == text {
            return Some(place);
        }
        place += 1;
    }
    None
}

/// The field at a place.
pub fn field(row: &ByteRecord, place: usize) -> &[u8]
    ensures { result.now ≡ field_in (fields_of row.now) place }
{
    row.get(place).unwrap_or(&[])
}

/// The field of a column that may be missing.
pub fn optional_field(row: &ByteRecord, place: Option<usize>) -> &[u8]
    ensures { result.now ≡ optional_field_in (fields_of row.now) place }
{
    match place {
        Some(place) => field(row, place),
        None => &[],
    }
}
