//! Fields read one after another, each in its full width (RFC 7011, section 6.1).

ghost use Rattle.std.specs.Prelude.{◌≡◌, ℕ, true, None, length, IfOk, IfErr, IfSome};
ghost use Rattle.std.specs.List.{AllPass};
ghost use Rattle.flow_table.specs.Plans.{is_key_kind};
ghost use Rattle.flow_export.specs.IpfixText.{number_octets};
ghost use Rattle.flow_merge.specs.InnerReading.{Refuses, SpellsCell, TellsCell, TellsCells, TellsNone, TellsNumber, TellsNumbers, TellsOctets, TellsSome};

use crate::row_fault::RowFault;
use flow_table::Key;
use ipfix_elements::{Cell, Kind, read_cell};
use ipfix_message::FieldIter;
use ipfix_wire::ElementId;
use std::alloc::Global;

// The octets of the next field, if that is one of the element.
fn next_octets<'a>(fields: &mut FieldIter<'a>, element: ElementId) -> Option<&'a [u8]>
    ensures some { IfSome result (λ octets. TellsOctets element fields.old octets.now fields.new) }
    ensures none { result ≡ None → TellsNone (TellsOctets element fields.old) }
{
    let field = fields.next()?;
    if field.element == element {
        Some(field.octets)
    } else {
        None
    }
}

// The number that eight octets are.
fn read_full_number(octets: &[u8]) -> Option<u64>
    ensures some { IfSome result (λ n. number_octets n ≡ octets.now) }
    ensures none { result ≡ None → (n : ℕ) → number_octets n ≡ octets.now → ⊥ }
{
    let octets = <[u8; 8]>::try_from(octets).ok()?;
    Some(u64::from_be_bytes(octets))
}

// The cell that as many octets are as the kind's values have.
fn read_full_cell(kind: Kind, octets: &[u8]) -> Option<Cell>
    requires { is_key_kind kind ≡ true }
    ensures some { IfSome result (SpellsCell kind octets.now) }
    ensures none { result ≡ None → (cell : Cell) → SpellsCell kind octets.now cell → ⊥ }
{
    if let Kind::Unsigned(width) = kind
        && octets.len() != width.octets()
    {
        return None;
    }
    read_cell(kind, octets)
}

/// The number that the next field tells, if that is one of the element.
pub(crate) fn next_number(fields: &mut FieldIter, element: ElementId) -> Option<u64>
    ensures some { IfSome result (λ n. TellsNumber element fields.old n fields.new) }
    ensures none { result ≡ None → TellsNone (TellsNumber element fields.old) }
{
    read_full_number(next_octets(fields, element)?)
}

// The cell that the next field tells, if that is one of the key.
fn next_cell(fields: &mut FieldIter, key: Key, kind: Kind) -> Option<Cell>
    requires { is_key_kind kind ≡ true }
    ensures some { IfSome result (λ cell. TellsCell (key, kind) fields.old cell fields.new) }
    ensures none { result ≡ None → TellsNone (TellsCell (key, kind) fields.old) }
{
    read_full_cell(kind, next_octets(fields, key.exported_element())?)
}

/// The cells that the next fields tell, one of each key.
pub(crate) fn next_cells(
    alloc: Global,
    keys: &[Key],
    kinds: &[Kind],
    fields: &mut FieldIter,
) -> Result<Vec<Cell>, RowFault>
    requires beside { length kinds.now ≡ length keys.now }
    requires comparable { AllPass is_key_kind kinds.now }
    ensures ok { IfOk result (λ made.
        TellsCells keys.now kinds.now fields.old made.items fields.new) }
    ensures fault { IfErr result
        (Refuses (TellsSome (TellsCells keys.now kinds.now fields.old))) }
{
    let mut cells = Vec::with_capacity(alloc, keys.len())?;
    for (key, kind) in keys.iter().zip(kinds) {
        let Some(cell) = next_cell(fields, *key, *kind) else {
            return Err(RowFault::Fields);
        };
        cells.push(cell)?;
    }
    Ok(cells)
}

/// The numbers that the next fields tell, one of each element.
pub(crate) fn next_numbers(
    alloc: Global,
    elements: &[ElementId],
    fields: &mut FieldIter,
) -> Result<Vec<u64>, RowFault>
    ensures ok { IfOk result (λ made. TellsNumbers elements.now fields.old made.items fields.new) }
    ensures fault { IfErr result (Refuses (TellsSome (TellsNumbers elements.now fields.old))) }
{
    let mut numbers = Vec::with_capacity(alloc, elements.len())?;
    for element in elements {
        let Some(number) = next_number(fields, *element) else {
            return Err(RowFault::Fields);
        };
        numbers.push(number)?;
    }
    Ok(numbers)
}
