//! The fields of the heading of CSV.

ghost use Rattle.std.specs.Prelude.{◌≡◌, [], OnOk};
ghost use Rattle.csv.specs.Records.{fields_of, partial_of};
ghost use Rattle.flow_export.specs.CsvText.{counter_texts, heading, key_texts};
ghost use Rattle.flow_export.specs.Written.{AddsFields};

use crate::key_name::{append_key, append_name};
use csv::ByteRecord;
use element_registry::Elements;
use flow_table::{Key, Plan};
use ipfix_wire::ElementId;
use std::alloc::AllocError;

/// The names of the fields. `text` is room to write in.
pub fn set_heading(
    elements: &Elements,
    plan: &Plan,
    text: &mut Vec<u8>,
    line: &mut ByteRecord,
) -> Result<(), AllocError>
    ensures { OnOk result (fields_of line.new ≡ heading elements.now plan.now) }
{
    line.clear();
    line.push_field("start".as_bytes())?;
    line.push_field("end".as_bytes())?;
    push_keys(elements, plan.keys(), text, line)?;
    push_names(elements, plan.counters(), text, line)?;
    line.push_field("flows".as_bytes())
}

// Adds the names of keys to the fields.
fn push_keys(
    elements: &Elements,
    keys: &[Key],
    text: &mut Vec<u8>,
    line: &mut ByteRecord,
) -> Result<(), AllocError>
    requires { partial_of line.old ≡ [] }
    ensures ok { OnOk result (AddsFields line.old line.new (key_texts elements.now keys.now)) }
    ensures partial { OnOk result (partial_of line.new ≡ []) }
{
    for key in keys {
        text.clear();
        append_key(elements, *key, text)?;
        line.push_field(text.as_slice())?;
    }
    Ok(())
}

// Adds the names of counters to the fields.
fn push_names(
    elements: &Elements,
    counters: &[ElementId],
    text: &mut Vec<u8>,
    line: &mut ByteRecord,
) -> Result<(), AllocError>
    requires { partial_of line.old ≡ [] }
    ensures ok { OnOk result (AddsFields line.old line.new (counter_texts elements.now counters.now)) }
    ensures partial { OnOk result (partial_of line.new ≡ []) }
{
    for counter in counters {
        text.clear();
        append_name(elements, *counter, text)?;
        line.push_field(text.as_slice())?;
    }
    Ok(())
}
