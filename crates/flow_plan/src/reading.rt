//! Reading a plan.

ghost use Rattle.std.specs.Prelude.{◌≡◌, [], Ok, Some, IfOk, IfErr};
ghost use Rattle.flow_table.specs.Plans.{IsPlan};
ghost use Rattle.toml.specs.Parse.{parse_document};
ghost use Rattle.toml.specs.View.{table_view};
ghost use Rattle.flow_plan.specs.Faults.{Fails};
ghost use Rattle.flow_plan.specs.PlanTexts.{plan_of_text, plan_of_document, plan_of_fields};
ghost use Rattle.flow_plan.specs.Places.{IsDocument, IsNoDocument, IsNoTextOfDocument, IsPlanError, IsPlanOf, TellsKey};
ghost use Rattle.flow_plan.specs.Shown.{shown, IsOfValues, ReadsPlan};

use crate::blame::place_of;
use crate::error::PlanTextError;
use crate::fault::PlanTextFault;
use crate::fields::{Fields, read_fields, unknown_field};
use crate::lines::{column_at, line_at};
use crate::named::{counters_named, keys_named};
use element_registry::Elements;
use flow_table::Plan;
use std::alloc::Global;
use std::str;
use toml::Table;

/// The plan of a TOML document, or the first fault that fits it, in this order: `NotToml`;
/// `UnknownField`, a key that is not listed below; then for each key in the order of the list
/// `Missing` and `WrongKind`; then `UnknownElement`; then `Plan`, with the fault of
/// [`Plan::new`](flow_table::Plan::new). `OutOfMemory` may come in place of any of them.
///
/// | Key | Value |
/// |---|---|
/// | `interval_ms` | the length of an interval in milliseconds: an integer, 0 to 4294967295 |
/// | `method` | `"start"`, `"end"`, `"mid"`, `"uniform"` or `"proportional"` |
/// | `max_spread` | an integer, 0 to 4294967295; 4096 if it is missing |
/// | `keys` | an array of names of elements, those of context among them ([`context_named`](flow_table::context_named)), each alone or as `NAME/BITS` with a prefix of 0 to 255 bits |
/// | `counters` | an array of names of elements |
/// | `times` | `"basic"`, or `"all"`: [`Times`](flow_table::Times); `"basic"` if it is missing |
/// | `totals` | `"refused"`, or `"as-deltas"`: [`Totals`](flow_table::Totals); `"refused"` if it is missing |
pub fn read_plan(alloc: Global, text: &str) -> Result<Plan, PlanTextFault>
    ensures ok { IfOk result (λ plan. plan_of_text [] text.now ≡ Ok plan) }
    ensures fault { IfErr result (λ fault. Fails fault (plan_of_text [] text.now)) }
    // Its numbers are in their ranges, its keys can be compared and its keys and counters are no times of flows, and
    // no element stands twice.
    ensures sound { IfOk result IsPlan }
{
    let elements = Elements::built_in(alloc);
    match read_plan_with(alloc, &elements, text.as_bytes()) {
        Ok(plan) => Ok(plan),
        Err(error) => Err(error.fault()),
    }
}

/// As [`read_plan`], of octets that are to be UTF-8, where the texts of `keys` and `counters` may name
/// elements of files, too, and the faults of a plan are those of
/// [`Plan::with_elements`](flow_table::Plan::with_elements). A fault comes with its place: the line at which the octets
/// are no UTF-8; the line and the column at which they are no TOML; or the key, and for
/// `UnknownElement` the text. For `Plan` it is the key whose value is out of its range, the number of
/// elements, or the first text that has the fault. Of several keys that plans don't have it is the one
/// that comes first in the order of octets.
pub fn read_plan_with(
    alloc: Global,
    elements: &Elements,
    octets: &[u8],
) -> Result<Plan, PlanTextError>
    ensures ok { IfOk result (IsPlanOf elements.now octets.now) }
    ensures err { IfErr result (IsPlanError elements.now octets.now) }
    // Its numbers are in their ranges, its keys can be compared and its keys and counters are no times of flows, and
    // no element stands twice.
    ensures sound { IfOk result IsPlan }
{
    match read_document(alloc, octets) {
        Ok(table) => read_members(alloc, elements, &table),
        Err(error) => Err(error),
    }
}

/// The TOML document of octets that are to be UTF-8. A fault comes with its place: the line at which the octets are
/// no UTF-8, or the line and the column at which they are no TOML.
pub fn read_document(alloc: Global, octets: &[u8]) -> Result<Table, PlanTextError>
    ensures ok { IfOk result (λ table. IsDocument octets.now (table_view table)) }
    ensures err { IfErr result (IsNoDocument octets.now) }
{
    match str::from_utf8(octets) {
        Ok(text) => read_text(alloc, text),
        Err(error) => Err(PlanTextError::NotUtf8 {
            line: line_at(octets, error.valid_up_to()),
        }),
    }
}

fn read_text(alloc: Global, text: &str) -> Result<Table, PlanTextError>
    ensures ok { IfOk result (λ table. parse_document text.now ≡ Some (table_view table)) }
    ensures err { IfErr result (IsNoTextOfDocument text.now) }
{
    let error = match toml::table_from_str(alloc, text) {
        Ok(table) => return Ok(table),
        Err(error) => error,
    };
    match error.span() {
        Some(span) => Err(PlanTextError::NotToml {
            message: String::from_str(alloc, error.message())?,
            line: line_at(text.as_bytes(), span.start),
            column: column_at(text.as_bytes(), span.start),
            error,
        }),
        None => Err(PlanTextError::OutOfMemory),
    }
}

/// The plan of the members of a document, as [`read_plan_with`] reads it of a text, with its place in them.
pub fn read_members(
    alloc: Global,
    elements: &Elements,
    table: &Table,
) -> Result<Plan, PlanTextError>
    ensures reads { ReadsPlan TellsKey plan_of_document elements.now (table_view table.now) result }
    // Its numbers are in their ranges, its keys can be compared and its keys and counters are no times of flows, and
    // no element stands twice.
    ensures sound { IfOk result IsPlan }
{
    if let Some(key) = unknown_field(table) {
        return Err(PlanTextError::UnknownField { key: key.clone()? });
    }
    let fields = read_fields(alloc, table)?;
    make_plan(alloc, elements, &fields)
}

fn make_plan(alloc: Global, elements: &Elements, fields: &Fields) -> Result<Plan, PlanTextError>
    ensures reads { ReadsPlan IsOfValues plan_of_fields elements.now (shown fields.now) result }
    ensures sound { IfOk result IsPlan }
{
    let keys = keys_named(alloc, elements, &fields.keys)?;
    let counters = counters_named(alloc, elements, &fields.counters)?;
    match Plan::with_elements(
        alloc,
        elements,
        fields.length,
        fields.method,
        &keys,
        &counters,
        fields.max_spread,
        fields.choices,
    ) {
        Ok(plan) => Ok(plan),
        Err(fault) => Err(PlanTextError::Plan {
            fault,
            place: place_of(alloc, elements, fields, &keys, &counters, fault)?,
        }),
    }
}
