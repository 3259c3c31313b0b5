//! A row of a file.

ghost use Rattle.std.specs.Prelude.{◌≡◌, true, is_none, IfOk, IfSome};
ghost use Rattle.csv.specs.Records.{fields_of};
ghost use Rattle.ipfix_elements.specs.Elements.{entry_of};
ghost use Rattle.element_registry.specs.Faults.{Gives};
ghost use Rattle.element_registry.specs.Rows.{GivesEntry, element_in, entry_in, entry_of_element, has_unknown_type as is_unknown};

use crate::columns::{Columns, field, optional_field};
use crate::entry::Entry;
use crate::fault::ElementsFault;
use crate::names::{full_name, read_name};
use crate::numbers::{read_element_number, read_enterprise};
use crate::types::{kind_by, kind_named};
use csv::ByteRecord;
use ipfix_elements::name_of;
use ipfix_wire::ElementId;
use std::alloc::Global;

/// What a row says of an element: nothing, if it has no type, or the element is built in.
#[tactic(auto, using(crate::proofs::Steps::fails_then, crate::proofs::Steps::goes_on))]
pub fn read_entry(
    alloc: Global,
    columns: &Columns,
    row: &ByteRecord,
) -> Result<Option<Entry>, ElementsFault>
    ensures given { GivesEntry result (entry_in columns.now (fields_of row.now)) }
    ensures free { IfOk result (λ o. IfSome o (λ entry. is_none (entry_of entry.element) ≡ true)) }
{
    if row.len() != columns.count {
        return Err(ElementsFault::NotCsv);
    }
    if field(row, columns.kind).is_empty() {
        return Ok(None);
    }
    let element = read_element(columns, row)?;
    read_entry_of(alloc, columns, row, element)
}

fn read_element(columns: &Columns, row: &ByteRecord) -> Result<ElementId, ElementsFault>
    ensures { Gives (λ e. e) result (element_in columns.now (fields_of row.now)) }
{
    let Some(number) = read_element_number(field(row, columns.number)) else {
        return Err(ElementsFault::Number);
    };
    match read_enterprise(optional_field(row, columns.enterprise)) {
        Some(pen) => Ok(ElementId { pen, number }),
        None => Err(ElementsFault::Enterprise),
    }
}

fn read_entry_of(
    alloc: Global,
    columns: &Columns,
    row: &ByteRecord,
    element: ElementId,
) -> Result<Option<Entry>, ElementsFault>
    ensures given { GivesEntry result
        (entry_of_element columns.now (fields_of row.now) element) }
    ensures free { IfOk result (λ o. IfSome o (λ entry. is_none (entry_of entry.element) ≡ true)) }
{
    if name_of(element).is_some() {
        return Ok(None);
    }
    let Some(name) = read_name(field(row, columns.name)) else {
        return Err(ElementsFault::Name);
    };
    let is_delta = optional_field(row, columns.semantics) == b"deltaCounter".as_slice();
    Ok(Some(Entry {
        element,
        name: full_name(alloc, element.pen, name)?,
        kind: kind_by(field(row, columns.kind), is_delta),
        is_delta,
    }))
}

/// Whether a row has a type that is not known.
pub fn has_unknown_type(columns: &Columns, row: &ByteRecord) -> bool
    ensures { result ≡ is_unknown columns.now (fields_of row.now) }
{
    let kind = field(row, columns.kind);
    !kind.is_empty() && kind_named(kind).is_none()
}
