//! The values of a document's keys.

ghost use Rattle.std.specs.Prelude.{◌≡◌, string_bytes, IfOk};
ghost use Rattle.std.specs.Option.{option_map};
ghost use Rattle.toml.specs.View.{table_view, view};
ghost use Rattle.flow_plan.specs.PlanTexts.{is_field as is_field_name, required, optional, small_number, method, texts, times_in as times_of, totals_in as totals_of};
ghost use Rattle.flow_plan.specs.Places.{unknown_field as unknown_in, value_of};
ghost use Rattle.flow_plan.specs.Shown.{texts_of, ReadsFields, ReadsKey, ReadsValue};
ghost use Rattle.flow_table.specs.Plans.{basic};
ghost use Rattle.flow_plan.specs.declared.error.PlanKey.TheVariants.{MaxSpread};

use crate::error::{PlanKey, PlanTextError};
use flow_table::{Choices, MAX_SPREAD, Method, Times, Totals};
use std::alloc::{AllocError, Global};
use toml::{Table, Value};

/// What a document says of a plan.
#[derive(Drop)]
pub struct Fields<'a> {
    pub length: u32,
    pub method: Method,
    pub max_spread: u32,
    pub keys: Vec<&'a str>,
    pub counters: Vec<&'a str>,
    pub choices: Choices,
}

/// The first key of a document that plans don't have.
pub fn unknown_field(table: &Table) -> Option<&String>
    ensures { option_map (λ name. string_bytes name.now) result
        ≡ unknown_in (table_view table.now) }
{
    table.keys().find(|name| !is_field(name.as_str()))
}

fn is_field(name: &str) -> bool
    ensures { result ≡ is_field_name name.now }
{
    matches!(
        name,
        "interval_ms" | "method" | "max_spread" | "keys" | "counters" | "times" | "totals"
    )
}

/// The values of a document's keys, or the first fault: for each key, in their order, `Missing` and
/// `WrongKind`.
pub fn read_fields(alloc: Global, table: &Table) -> Result<Fields<'_>, PlanTextError>
    ensures { ReadsFields (table_view table.now) result }
{
    let length = number_at(table, PlanKey::IntervalMs)?;
    let method = method_at(table)?;
    let max_spread = max_spread(table)?;
    let keys = texts_at(alloc, table, PlanKey::Keys)?;
    let counters = texts_at(alloc, table, PlanKey::Counters)?;
    let times = times_at(table)?;
    let totals = totals_at(table)?;
    Ok(Fields {
        length,
        method,
        max_spread,
        keys,
        counters,
        choices: Choices { times, totals },
    })
}

fn value_at(table: &Table, key: PlanKey) -> Option<&Value>
    ensures { option_map (λ value. view value.now) result ≡ value_of key (table_view table.now) }
{
    table.get(key.name())
}

// The number at a key that has to be there.
fn number_at(table: &Table, key: PlanKey) -> Result<u32, PlanTextError>
    ensures { ReadsKey key (table_view table.now) (required small_number) result }
{
    match value_at(table, key) {
        Some(value) => small_number_in(value).ok_or(PlanTextError::WrongKind { key }),
        None => Err(PlanTextError::Missing { key }),
    }
}

// The most intervals that a flow may cover: a value that may be missing.
fn max_spread(table: &Table) -> Result<u32, PlanTextError>
    ensures { ReadsKey MaxSpread (table_view table.now) (optional 4096 small_number) result }
{
    let key = PlanKey::MaxSpread;
    match value_at(table, key) {
        Some(value) => small_number_in(value).ok_or(PlanTextError::WrongKind { key }),
        None => Ok(MAX_SPREAD),
    }
}

fn method_at(table: &Table) -> Result<Method, PlanTextError>
    ensures { ReadsKey PlanKey.Method (table_view table.now) (required method) result }
{
    let key = PlanKey::Method;
    match value_at(table, key) {
        Some(value) => method_in(value).ok_or(PlanTextError::WrongKind { key }),
        None => Err(PlanTextError::Missing { key }),
    }
}

// Which elements say times: a value that may be missing.
fn times_at(table: &Table) -> Result<Times, PlanTextError>
    ensures { ReadsKey PlanKey.Times (table_view table.now)
        (optional basic.times times_of) result }
{
    let key = PlanKey::Times;
    match value_at(table, key) {
        Some(value) => times_in(value).ok_or(PlanTextError::WrongKind { key }),
        None => Ok(Choices::BASIC.times),
    }
}

// What becomes of totals: a value that may be missing.
fn totals_at(table: &Table) -> Result<Totals, PlanTextError>
    ensures { ReadsKey PlanKey.Totals (table_view table.now)
        (optional basic.totals totals_of) result }
{
    let key = PlanKey::Totals;
    match value_at(table, key) {
        Some(value) => totals_in(value).ok_or(PlanTextError::WrongKind { key }),
        None => Ok(Choices::BASIC.totals),
    }
}

fn texts_at(alloc: Global, table: &Table, key: PlanKey) -> Result<Vec<&str>, PlanTextError>
    ensures { ReadsValue texts_of key (table_view table.now) (required texts) result }
{
    match value_at(table, key) {
        Some(value) => texts_in(alloc, value)?.ok_or(PlanTextError::WrongKind { key }),
        None => Err(PlanTextError::Missing { key }),
    }
}

// An integer from 0 to 2^32 - 1.
fn small_number_in(value: &Value) -> Option<u32>
    ensures { result ≡ small_number (view value.now) }
{
    u32::try_from(value.as_integer()?).ok()
}

fn method_in(value: &Value) -> Option<Method>
    ensures { result ≡ method (view value.now) }
{
    match value.as_str() {
        Some("start") => Some(Method::Start),
        Some("end") => Some(Method::End),
        Some("mid") => Some(Method::Mid),
        Some("uniform") => Some(Method::Uniform),
        Some("proportional") => Some(Method::Proportional),
        _ => None,
    }
}

fn times_in(value: &Value) -> Option<Times>
    ensures { result ≡ times_of (view value.now) }
{
    match value.as_str() {
        Some("basic") => Some(Times::Basic),
        Some("all") => Some(Times::All),
        _ => None,
    }
}

fn totals_in(value: &Value) -> Option<Totals>
    ensures { result ≡ totals_of (view value.now) }
{
    match value.as_str() {
        Some("refused") => Some(Totals::Refused),
        Some("as-deltas") => Some(Totals::AsDeltas),
        _ => None,
    }
}

/// The texts of an array that has nothing else, and none of any other value.
pub fn texts_in(alloc: Global, value: &Value) -> Result<Option<Vec<&str>>, AllocError>
    ensures { IfOk result (λ found. option_map texts_of found ≡ texts (view value.now)) }
{
    let Some(values) = value.as_array() else {
        return Ok(None);
    };
    let mut texts = Vec::new(alloc);
    for value in values.as_slice() {
        match value.as_str() {
            Some(text) => texts.push(text)?,
            None => return Ok(None),
        }
    }
    Ok(Some(texts))
}
