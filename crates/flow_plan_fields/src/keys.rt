//! The keys of a document that look something up.

ghost use Rattle.std.specs.Prelude.{◌≡◌, [], map, IfOk, OnOk};
ghost use Rattle.flow_plan.specs.Shown.{shown_all};
ghost use Rattle.flow_plan_fields.specs.Keys as keys_of;
ghost use Rattle.flow_plan_fields.specs.Keys.{key_value, keys_in, keys_said, look_up_in, map_key_value, with_key, without_text};

use crate::addresses::{LookUp, look_up};
use crate::named::{EXAMPLES_PEN, MAX_MAP_KEYS, NamedKey, NamedMap};
use element_registry::Elements;
use flow_maps::MapKey;
use ipfix_wire::ElementId;
use std::alloc::{AllocError, Global};

/// The keys among some texts that look something up in one of these maps, each once.
pub fn keys_among(
    alloc: Global,
    elements: &Elements,
    maps: &[NamedMap],
    texts: &[&str],
) -> Result<Vec<NamedKey>, AllocError>
    ensures { IfOk result (λ all. keys_in all
        ≡ keys_said elements.now maps.now (shown_all texts.now)) }
{
    let mut keys = Vec::new(alloc);
    let mut left = texts;
    while let [text, rest @ ..] = left {
        let found = look_up(alloc, elements, maps, text)?;
        push_key(alloc, &mut keys, text, found)?;
        left = rest;
    }
    Ok(keys)
}

// Appends a text that looks something up, unless it is there, or there are as many as there may be.
fn push_key(
    alloc: Global,
    keys: &mut Vec<NamedKey>,
    text: &str,
    found: Option<LookUp>,
) -> Result<(), AllocError>
    ensures { OnOk result (keys_in keys.new
        ≡ with_key (keys_in keys.old) text.now (look_up_in found)) }
{
    let Some(LookUp { map, addresses }) = found else {
        return Ok(());
    };
    if has_text(keys.as_slice(), text) || keys.len() >= MAX_MAP_KEYS {
        return Ok(());
    }
    let element = element_of(keys.len() as u16 + 1);
    let key = MapKey {
        element,
        map,
        addresses,
    };
    let text = String::from_str(alloc, text)?;
    keys.push(NamedKey { text, key })?;
    Ok(())
}

fn has_text(mut keys: &[NamedKey], text: &str) -> bool
    ensures { result ≡ keys_of.has_text text.now (map key_value keys.entry.now) }
{
    while let [key, rest @ ..] = keys {
        if key.text.as_str() == text {
            return true;
        }
        keys = rest;
    }
    false
}

/// The element of the key that has this number.
pub fn element_of(number: u16) -> ElementId
    ensures { result ≡ keys_of.element_of number }
{
    ElementId {
        pen: EXAMPLES_PEN,
        number,
    }
}

/// The keys without their texts.
pub fn map_keys(alloc: Global, mut keys: &[NamedKey]) -> Result<Vec<MapKey>, AllocError>
    ensures { IfOk result (λ copies. map map_key_value copies.items
        ≡ map without_text keys.entry.now) }
{
    let mut copies = Vec::with_capacity(alloc, keys.len())?;
    while let [key, rest @ ..] = keys {
        let copy = copy_of(alloc, &key.key)?;
        copies.push(copy)?;
        keys = rest;
    }
    Ok(copies)
}

// A key once more.
fn copy_of(alloc: Global, key: &MapKey) -> Result<MapKey, AllocError>
    ensures { IfOk result (λ copy. map_key_value copy ≡ map_key_value key.now) }
{
    Ok(MapKey {
        element: key.element,
        map: key.map,
        addresses: Vec::from_slice(alloc, &key.addresses)?,
    })
}
