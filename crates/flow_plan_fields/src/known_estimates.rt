//! Estimates as elements that are known.

ghost use Rattle.std.specs.Prelude.{◌≡◌, true, is_none, string_bytes, Ok, IfErr, IfOk, OnOk};
ghost use Rattle.ipfix_elements.specs.Elements.{entry_of};
ghost use Rattle.element_registry.specs.Faults.{Fails};
ghost use Rattle.element_registry.specs.Registries.{shown};
ghost use Rattle.flow_plan_fields.specs.Scaled as scaled_plans;
ghost use Rattle.flow_plan_fields.specs.Scaled.{AddsEstimates, known_estimate, with_estimate};

use crate::estimates::estimated;
use element_registry::{ElementKind, Elements, ElementsFault, Entry};
use flow_estimates::Estimate;
use ipfix_elements::{Kind, Width};
use std::alloc::{AllocError, Global};

/// What is put after the name of a counter.
const NAME_END: &str = "_estimated";

/// Elements, and after them those of estimates: counters of 64 bits, each named after its counter. The fault is that of
/// the first that can't be added, as where a file of elements has its number or its name.
pub fn add_estimates(
    alloc: Global,
    mut elements: Elements,
    mut keys: &[Estimate],
) -> Result<Elements, ElementsFault>
    ensures { AddsEstimates elements keys.entry.now result }
{
    while let [key, rest @ ..] = keys {
        if let Err(fault) = add_estimate(alloc, &mut elements, key) {
            return Err(fault);
        }
        keys = rest;
    }
    Ok(elements)
}

// Adds the element of an estimate.
fn add_estimate(alloc: Global, elements: &mut Elements, key: &Estimate) -> Result<(), ElementsFault>
    ensures ok { OnOk result (with_estimate elements.old key.now ≡ Ok elements.new) }
    ensures fault { IfErr result (λ fault. Fails fault (with_estimate elements.old key.now)) }
{
    let entry = entry_of_estimate(alloc, elements, key)?;
    elements.add(entry)
}

// What is known of the element of an estimate.
fn entry_of_estimate(
    alloc: Global,
    elements: &Elements,
    key: &Estimate,
) -> Result<Entry, AllocError>
    ensures known { IfOk result (λ entry. shown entry ≡ known_estimate elements.now key.now) }
    ensures free { IfOk result (λ entry. is_none (entry_of entry.element) ≡ true) }
{
    let name = elements.name_of(key.counter).unwrap_or("");
    Ok(Entry {
        element: estimated(key.counter),
        name: estimate_name(alloc, name)?,
        kind: ElementKind::Plain(Kind::Unsigned(Width::Eight)),
        is_delta: true,
    })
}

// The name of a counter's estimate.
fn estimate_name(alloc: Global, name: &str) -> Result<String, AllocError>
    ensures { IfOk result (λ text. string_bytes text ≡ scaled_plans.estimate_name name.now) }
{
    let mut text = String::from_str(alloc, name)?;
    text.push_str(NAME_END)?;
    Ok(text)
}
