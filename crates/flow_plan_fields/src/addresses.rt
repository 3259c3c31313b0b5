//! What the text of a key looks up.

ghost use Rattle.std.specs.Prelude.{◌≡◌, ◌==◌, IfOk};
ghost use Rattle.std.specs.List.{slice_split};
ghost use Rattle.std.specs.Option.{option_map};
ghost use Rattle.flow_table.specs.Plans.{key_kind};
ghost use Rattle.flow_plan.specs.Shown.{shown_all, texts_of};
ghost use Rattle.flow_plan_fields.specs.Keys as keys_of;
ghost use Rattle.flow_plan_fields.specs.Keys.{addresses_of, items_in, look_up_in};

use crate::named::NamedMap;
use element_registry::{ElementKind, Elements};
use flow_maps::AddressElement;
use flow_plan::key_element;
use flow_table::context_kind;
use ipfix_elements::Kind;
use ipfix_wire::ElementId;
use std::alloc::{AllocError, Global};

/// What a key looks up: an address in a map.
#[derive(Drop)]
pub struct LookUp {
    /// The place of the map.
    pub map: usize,
    /// The elements of which the first that is there gives the address.
    pub addresses: Vec<AddressElement>,
}

/// What a text looks up in one of these maps, if it does.
pub fn look_up(
    alloc: Global,
    elements: &Elements,
    maps: &[NamedMap],
    text: &str,
) -> Result<Option<LookUp>, AllocError>
    ensures { IfOk result (λ found. look_up_in found
        ≡ keys_of.look_up elements.now maps.now text.now) }
{
    let Some((name, names)) = call_in(text) else {
        return Ok(None);
    };
    let Some(map) = place_of(name, maps) else {
        return Ok(None);
    };
    match addresses_in(alloc, elements, names)? {
        Some(addresses) => Ok(Some(LookUp { map, addresses })),
        None => Ok(None),
    }
}

// A name, and what is in the parentheses after it.
fn call_in(text: &str) -> Option<(&str, &str)>
    ensures { option_map (λ p. (p.0.now, p.1.now)) result ≡ keys_of.call_in text.now }
{
    let (name, rest) = cut_at_open(text)?;
    let (names, after) = cut_at_close(rest)?;
    if after.is_empty() {
        Some((name, names))
    } else {
        None
    }
}

fn cut_at_open(text: &str) -> Option<(&str, &str)>
    ensures { option_map (λ p. (p.0.now, p.1.now)) result ≡ keys_of.cut_at 40 text.now }
{
    text.split_once('(')
}

fn cut_at_close(text: &str) -> Option<(&str, &str)>
    ensures { option_map (λ p. (p.0.now, p.1.now)) result ≡ keys_of.cut_at 41 text.now }
{
    text.split_once(')')
}

// The place of the map that is named.
fn place_of(name: &str, maps: &[NamedMap]) -> Option<usize>
    ensures { result ≡ keys_of.place_of name.now maps.now }
{
    maps.iter().position(|map| map.name.as_str() == name)
}

// The elements that are named between commas, if each is one of addresses.
fn addresses_in(
    alloc: Global,
    elements: &Elements,
    names: &str,
) -> Result<Option<Vec<AddressElement>>, AllocError>
    ensures { IfOk result (λ found. items_in found
        ≡ keys_of.addresses_in elements.now names.now) }
{
    let parts = split(alloc, names)?;
    addresses_named(alloc, elements, &parts)
}

fn split(alloc: Global, names: &str) -> Result<Vec<&str>, AllocError>
    ensures { IfOk result (λ parts. texts_of parts ≡ slice_split (λ b. b == 44) names.now) }
{
    names.split(',').collect(alloc)
}

fn addresses_named(
    alloc: Global,
    elements: &Elements,
    parts: &[&str],
) -> Result<Option<Vec<AddressElement>>, AllocError>
    ensures { IfOk result (λ found. items_in found
        ≡ addresses_of elements.now (shown_all parts.now)) }
{
    let mut addresses = Vec::new(alloc);
    let mut left = parts;
    while let [part, rest @ ..] = left {
        match address_named(elements, after_space(part)) {
            Some(address) => addresses.push(address)?,
            None => return Ok(None),
        }
        left = rest;
    }
    Ok(Some(addresses))
}

// A text without the space before it, if there is one.
fn after_space(text: &str) -> &str
    ensures { result.now ≡ keys_of.after_space text.now }
{
    match text.strip_prefix(' ') {
        Some(rest) => rest,
        None => text,
    }
}

// The element of addresses that is named, if it is one.
fn address_named(elements: &Elements, name: &str) -> Option<AddressElement>
    ensures { result ≡ keys_of.address_named elements.now name.now }
{
    let element = key_element(elements, name)?;
    let kind = address_kind(elements, element)?;
    Some(AddressElement { element, kind })
}

// The kind that the element's fields are read by, if they are addresses of IPv4 or IPv6.
fn address_kind(elements: &Elements, element: ElementId) -> Option<Kind>
    ensures { result ≡ keys_of.address_kind (key_kind elements.now element) }
{
    let kind = match (context_kind(element), elements.kind_of(element)) {
        (Some(kind), _) => kind,
        (None, ElementKind::Plain(kind)) => kind,
        (None, _) => return None,
    };
    match kind {
        Kind::Ipv4 | Kind::Ipv6 => Some(kind),
        _ => None,
    }
}
