//! The conditions of a `[[where]]`.

ghost use Rattle.std.specs.Prelude.{◌≡◌, string_bytes, IfErr};
ghost use Rattle.std.specs.Option.{option_map};
ghost use Rattle.toml.specs.View.{table_view, view};
ghost use Rattle.flow_plan.specs.Shown.{shown_all};
ghost use Rattle.flow_filter.specs.Faults.{IsFault};
ghost use Rattle.flow_plan_fields.specs.Maps.{found_text};
ghost use Rattle.flow_plan_fields.specs.Wheres as wheres;
ghost use Rattle.flow_plan_fields.specs.Wheres.{ReadsSide, ReadsSides, ReadsWhere, IsNoSide};

use crate::documents::value_at;
use crate::kinds::key_kind;
use crate::place::{Sides, WhereFault, side_key};
use element_registry::Elements;
use flow_filter::{Condition, FilterFault, Side};
use flow_plan::{key_element, texts_in};
use ipfix_elements::Kind;
use ipfix_wire::ElementId;
use std::alloc::Global;
use toml::{Table, Value};

/// The conditions of a `[[where]]`, or the first fault.
pub fn read_where(alloc: Global, elements: &Elements, value: &Value) -> Result<Sides, WhereFault>
    ensures { ReadsWhere elements.now (view value.now) result }
{
    match value.as_table() {
        Some(table) => read_sides(alloc, elements, table),
        None => Err(WhereFault::NoTable),
    }
}

fn read_sides(alloc: Global, elements: &Elements, table: &Table) -> Result<Sides, WhereFault>
    ensures { ReadsSides elements.now (table_view table.now) result }
{
    if let Some(key) = unknown_key(table) {
        return Err(WhereFault::UnknownKey { key: key.clone()? });
    }
    let Some(text) = element_text(table) else {
        return Err(WhereFault::NoElement);
    };
    let Some(element) = key_element(elements, text) else {
        return Err(WhereFault::UnknownElement {
            text: String::from_str(alloc, text)?,
        });
    };
    if !has_side(table) {
        return Err(WhereFault::NoSide);
    }
    let kind = key_kind(elements, element);
    let one_of = read_side(alloc, element, kind, Side::In, table)?;
    let none_of = read_side(alloc, element, kind, Side::NotIn, table)?;
    Ok(Sides { one_of, none_of })
}

// The first key that conditions don't have.
fn unknown_key(table: &Table) -> Option<&String>
    ensures { found_text result ≡ wheres.unknown_key (table_view table.now) }
{
    table.keys().find(|name| !is_where_key(name.as_str()))
}

fn is_where_key(name: &str) -> bool
    ensures { result ≡ wheres.is_where_key name.now }
{
    matches!(name, "element" | "in" | "not_in")
}

fn element_text(table: &Table) -> Option<&str>
    ensures { option_map (λ text. text.now) result ≡ wheres.element_text (table_view table.now) }
{
    match value_at(table, "element") {
        Some(value) => value.as_str(),
        None => None,
    }
}

fn has_side(table: &Table) -> bool
    ensures { result ≡ wheres.has_side (table_view table.now) }
{
    value_at(table, "in").is_some() || value_at(table, "not_in").is_some()
}

// The condition of a side, if its key is there.
fn read_side(
    alloc: Global,
    element: ElementId,
    kind: Kind,
    side: Side,
    table: &Table,
) -> Result<Option<Condition>, WhereFault>
    ensures { ReadsSide element kind side (wheres.side_value side (table_view table.now)) result }
{
    let Some(value) = value_at(table, side_key(side)) else {
        return Ok(None);
    };
    let Some(texts) = texts_in(alloc, value)? else {
        return Err(WhereFault::NoTexts { side });
    };
    match Condition::new(alloc, element, kind, side, &texts) {
        Ok(condition) => Ok(Some(condition)),
        Err(fault) => Err(fault_of(alloc, side, &texts, fault)),
    }
}

// What a fault of a condition tells of a side.
fn fault_of(alloc: Global, side: Side, texts: &[&str], fault: FilterFault) -> WhereFault
    requires { wheres.IsPlaceIn fault (shown_all texts.now) }
    ensures { wheres.TellsFault side (shown_all texts.now) fault result }
{
    match fault {
        FilterFault::Kind => WhereFault::Kind,
        FilterFault::Count => WhereFault::Count {
            side,
            count: texts.len(),
        },
        FilterFault::Text { place } => match String::from_str(alloc, texts[place]) {
            Ok(text) => WhereFault::Text { side, text },
            Err(_) => WhereFault::OutOfMemory,
        },
        FilterFault::OutOfMemory => WhereFault::OutOfMemory,
    }
}
