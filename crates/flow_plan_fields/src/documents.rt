//! What stands in a document where maps and keys do.

ghost use Rattle.std.specs.Prelude.{◌≡◌, ◌++◌, map, IfOk, OnOk};
ghost use Rattle.std.specs.Option.{option_map};
ghost use Rattle.toml.specs.Data.{get_member};
ghost use Rattle.toml.specs.View.{table_view, view};
ghost use Rattle.flow_plan.specs.Shown.{texts_of};
ghost use Rattle.flow_plan_fields.specs.Keys as keys_of;
ghost use Rattle.flow_plan_fields.specs.Keys.{conditions_in, named_in};
ghost use Rattle.flow_plan_fields.specs.Maps.{text_at as text_in, values_at as values_in};

use flow_plan::texts_in;
use std::alloc::{AllocError, Global};
use toml::{Table, Value};

/// The value of a key of a document.
pub fn value_at<'a>(table: &'a Table, key: &str) -> Option<&'a Value>
    ensures { option_map (λ value. view value.now) result ≡ get_member key.now (table_view table.now) }
{
    table.get(key)
}

/// The text of a key of a document, if it is one.
pub fn text_at<'a>(table: &'a Table, key: &str) -> Option<&'a str>
    ensures { option_map (λ text. text.now) result ≡ text_in key.now (table_view table.now) }
{
    match value_at(table, key) {
        Some(value) => value.as_str(),
        None => None,
    }
}

/// The values of a key of a document that is an array, none if it is missing, and `None` if it is no array.
#[tactic(auto, using(crate::proofs::Listed::values_view))]
pub fn values_at<'a>(table: &'a Table, key: &str) -> Option<&'a [Value]>
    ensures { option_map (λ all. map view all.now) result
        ≡ values_in key.now (table_view table.now) }
{
    match value_at(table, key) {
        Some(value) => Some(value.as_array()?.as_slice()),
        None => Some(&[]),
    }
}

/// The texts that may be keys of maps: those of the document's keys, and the elements of its conditions.
pub fn key_texts(alloc: Global, table: &Table) -> Result<Vec<&str>, AllocError>
    ensures { IfOk result (λ texts. texts_of texts ≡ keys_of.key_texts (table_view table.now)) }
{
    let mut texts = texts_of_keys(alloc, table)?;
    push_elements(conditions_of(table), &mut texts)?;
    Ok(texts)
}

// The conditions of a document; what is no array has none.
fn conditions_of(table: &Table) -> &[Value]
    ensures { map view result.now ≡ conditions_in (table_view table.now) }
{
    match values_at(table, "where") {
        Some(values) => values,
        None => &[],
    }
}

fn texts_of_keys(alloc: Global, table: &Table) -> Result<Vec<&str>, AllocError>
    ensures { IfOk result (λ texts. texts_of texts ≡ keys_of.texts_of_keys (table_view table.now)) }
{
    let Some(value) = value_at(table, "keys") else {
        return Ok(Vec::new(alloc));
    };
    match texts_in(alloc, value)? {
        Some(texts) => Ok(texts),
        None => Ok(Vec::new(alloc)),
    }
}

// Appends the elements of conditions, which these values are.
fn push_elements<'a>(values: &'a [Value], texts: &mut Vec<&'a str>) -> Result<(), AllocError>
    ensures { OnOk result (texts_of texts.new
        ≡ texts_of texts.old ++ named_in (map view values.now)) }
{
    let mut left = values;
    while let [condition, rest @ ..] = left {
        if let Some(text) = element_text(condition) {
            texts.push(text)?;
        }
        left = rest;
    }
    Ok(())
}

// The element of a condition.
fn element_text(condition: &Value) -> Option<&str>
    ensures { option_map (λ text. text.now) result ≡ keys_of.element_text (view condition.now) }
{
    match condition.as_table() {
        Some(table) => text_at(table, "element"),
        None => None,
    }
}
