//! Keys as elements that are known.

ghost use Rattle.std.specs.Prelude.{◌≡◌, true, is_none, map, Ok, IfErr, IfOk, OnOk};
ghost use Rattle.ipfix_elements.specs.Elements.{entry_of};
ghost use Rattle.element_registry.specs.Faults.{Fails};
ghost use Rattle.element_registry.specs.Registries.{shown};
ghost use Rattle.flow_plan_fields.specs.Keys.{key_value};
ghost use Rattle.flow_plan_fields.specs.Known.{known_key, with_map_key, AddsKeys};

use crate::keys::element_of;
use crate::named::NamedKey;
use element_registry::{ElementKind, Elements, ElementsFault, Entry};
use ipfix_elements::{Kind, Width};
use std::alloc::{AllocError, Global};

/// Elements, and after them those of keys: numbers of 32 bits, each named by the text of its key. The fault is that of
/// the first that can't be added, as where a file of elements has its number.
pub fn add_map_keys(
    alloc: Global,
    mut elements: Elements,
    mut keys: &[NamedKey],
) -> Result<Elements, ElementsFault>
    ensures { AddsKeys elements (map key_value keys.entry.now) result }
{
    while let [key, rest @ ..] = keys {
        if let Err(fault) = add_key(alloc, &mut elements, key) {
            return Err(fault);
        }
        keys = rest;
    }
    Ok(elements)
}

// Adds the element of a key.
fn add_key(alloc: Global, elements: &mut Elements, key: &NamedKey) -> Result<(), ElementsFault>
    ensures ok { OnOk result (with_map_key elements.old (key_value key.now) ≡ Ok elements.new) }
    ensures fault { IfErr result (λ e. Fails e (with_map_key elements.old (key_value key.now))) }
{
    let entry = entry_of_key(alloc, key)?;
    elements.add(entry)
}

// What is known of the element of a key.
fn entry_of_key(alloc: Global, key: &NamedKey) -> Result<Entry, AllocError>
    ensures known { IfOk result (λ entry. shown entry ≡ known_key (key_value key.now)) }
    ensures free { IfOk result (λ entry. is_none (entry_of entry.element) ≡ true) }
{
    Ok(Entry {
        element: element_of(key.key.element.number),
        name: String::from_str(alloc, key.text.as_str())?,
        kind: ElementKind::Plain(Kind::Unsigned(Width::Four)),
        is_delta: false,
    })
}
