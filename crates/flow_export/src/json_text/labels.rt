//! The names of a row's members, as they stand before the values. They are the same in each row.

ghost use Rattle.std.specs.Prelude.{◌≡◌, IfOk};
ghost use Rattle.element_registry.specs.Registries.{element_name};
ghost use Rattle.flow_export.specs.CsvText.{counter_texts, key_text, key_texts};
ghost use Rattle.flow_export.specs.JsonParts.{AreLabels, AreLabelsOf, label, text_of};

use crate::intervals::Intervals;
use crate::key_name::{append_key, append_name};
use element_registry::Elements;
use flow_table::{Key, Plan};
use ipfix_wire::ElementId;
use std::alloc::{AllocError, Global};

/// What stands before the value of a member that isn't the first.
#[derive(Drop)]
pub struct MemberLabel {
    pub text: Vec<u8>,
}

/// The labels of a plan's keys and counters, by the names that elements have there.
#[derive(Drop)]
pub struct RowLabels<'a> {
    pub elements: &'a Elements,
    pub intervals: Intervals<'a>,
    pub keys: Vec<MemberLabel>,
    pub counters: Vec<MemberLabel>,
}

impl<'a> RowLabels<'a> {
    /// The labels of a plan, for rows of these intervals.
    pub fn of(
        alloc: Global,
        elements: &'a Elements,
        plan: &Plan,
        intervals: Intervals<'a>,
    ) -> Result<Self, AllocError>
        ensures labels { IfOk result (AreLabels plan.now) }
        ensures elements { IfOk result (λ labels. labels.elements.now ≡ elements.now) }
        ensures intervals { IfOk result (λ labels. labels.intervals ≡ intervals.entry) }
    {
        let keys = key_labels(alloc, elements, plan.keys())?;
        let counters = counter_labels(alloc, elements, plan.counters())?;
        Ok(RowLabels {
            elements,
            intervals,
            keys,
            counters,
        })
    }
}

fn key_labels(
    alloc: Global,
    elements: &Elements,
    keys: &[Key],
) -> Result<Vec<MemberLabel>, AllocError>
    ensures { IfOk result (AreLabelsOf (key_texts elements.now keys.now)) }
{
    let mut labels = Vec::new(alloc);
    for key in keys {
        labels.push(key_label(alloc, elements, *key)?)?;
    }
    Ok(labels)
}

fn counter_labels(
    alloc: Global,
    elements: &Elements,
    counters: &[ElementId],
) -> Result<Vec<MemberLabel>, AllocError>
    ensures { IfOk result (AreLabelsOf (counter_texts elements.now counters.now)) }
{
    let mut labels = Vec::new(alloc);
    for counter in counters {
        labels.push(counter_label(alloc, elements, *counter)?)?;
    }
    Ok(labels)
}

// A key's name, as it stands before its value.
fn key_label(alloc: Global, elements: &Elements, key: Key) -> Result<MemberLabel, AllocError>
    ensures { IfOk result (λ made. text_of made ≡ label (key_text elements.now key)) }
{
    let mut text = Vec::new(alloc);
    text.extend_from_slice(b",\"")?;
    append_key(elements, key, &mut text)?;
    text.extend_from_slice(b"\":")?;
    Ok(MemberLabel { text })
}

// A counter's name, as it stands before its value.
fn counter_label(
    alloc: Global,
    elements: &Elements,
    counter: ElementId,
) -> Result<MemberLabel, AllocError>
    ensures { IfOk result (λ made. text_of made ≡ label (element_name elements.now counter)) }
{
    let mut text = Vec::new(alloc);
    text.extend_from_slice(b",\"")?;
    append_name(elements, counter, &mut text)?;
    text.extend_from_slice(b"\":")?;
    Ok(MemberLabel { text })
}
