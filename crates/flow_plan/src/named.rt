//! The elements that texts name.

ghost use Rattle.std.specs.Prelude.{◌≡◌};
ghost use Rattle.element_registry.specs.Registries.{element_by_name};
ghost use Rattle.flow_plan.specs.PlanTexts.{bits_in, key_element as key_element_in, key_named as key_in};
ghost use Rattle.flow_plan.specs.Shown.{shown_all, NamesEach};

use crate::error::{PlanKey, PlanTextError};
use element_registry::Elements;
use flow_table::{Key, context_named};
use ipfix_wire::ElementId;
use itoa::Buffer;
use std::alloc::Global;

/// The keys that texts name.
pub fn keys_named(
    alloc: Global,
    elements: &Elements,
    texts: &[&str],
) -> Result<Vec<Key>, PlanTextError>
    ensures { NamesEach PlanKey.Keys (key_in elements.now) (shown_all texts.now) result }
{
    let mut keys = Vec::new(alloc);
    for text in texts {
        match key_named(elements, text) {
            Some(key) => keys.push(key)?,
            None => {
                return Err(PlanTextError::UnknownElement {
                    key: PlanKey::Keys,
                    text: String::from_str(alloc, text)?,
                });
            }
        }
    }
    Ok(keys)
}

/// The counters that texts name.
pub fn counters_named(
    alloc: Global,
    elements: &Elements,
    texts: &[&str],
) -> Result<Vec<ElementId>, PlanTextError>
    ensures { NamesEach PlanKey.Counters (element_by_name elements.now) (shown_all texts.now) result }
{
    let mut counters = Vec::new(alloc);
    for text in texts {
        match elements.by_name(text) {
            Some(element) => counters.push(element)?,
            None => {
                return Err(PlanTextError::UnknownElement {
                    key: PlanKey::Counters,
                    text: String::from_str(alloc, text)?,
                });
            }
        }
    }
    Ok(counters)
}

// A key is NAME, or NAME/BITS.
fn key_named(elements: &Elements, text: &str) -> Option<Key>
    ensures { result ≡ key_in elements.now text.now }
{
    match text.split_once('/') {
        None => Some(Key {
            element: key_element(elements, text)?,
            prefix: None,
        }),
        Some((name, bits)) => Some(Key {
            element: key_element(elements, name)?,
            prefix: Some(prefix_bits(bits)?),
        }),
    }
}

/// The element of a key's name: one of context, or else one that is built in or of a file.
pub fn key_element(elements: &Elements, name: &str) -> Option<ElementId>
    ensures { result ≡ key_element_in elements.now name.now }
{
    match context_named(name) {
        None => elements.by_name(name),
        element => element,
    }
}

// A decimal number from 0 to 255, without a sign or leading zeros.
fn prefix_bits(text: &str) -> Option<u8>
    ensures { result ≡ bits_in text.now }
{
    let bits = text.parse::<u8>().ok()?;
    if Buffer::new().format(bits) == text {
        Some(bits)
    } else {
        None
    }
}
