//! Numbers, appended to records.

ghost use Rattle.std.specs.Prelude.{◌≡◌, ◌∷◌, ◌++◌, [], None, IfOk, IsOk, OnOk};
ghost use Rattle.ipfix_message.specs.FieldViews.{field_of};
ghost use Rattle.flow_maps.specs.Numbers as numbers;

use crate::map_key::MapKey;
use ipfix_message::{FieldRef, Fields};
use ipfix_wire::ElementId;
use network_prefixes::AddressBits;
use prefix_numbers::PrefixMap;
use std::alloc::{AllocError, Global};

/// As many octets as a field has at most (RFC 7011, section 7).
const MOST_OCTETS: usize = 65535;

/// The keys of a plan whose values are numbers of maps, and these maps.
#[derive(Debug, Drop)]
pub struct Maps {
    pub maps: Vec<PrefixMap>,
    pub keys: Vec<MapKey>,
}

impl Maps {
    /// Appends the number of each key to a record's fields, in 4 octets: that of the longest prefix that has its
    /// address, 0 if none has, and no field where the record has no address. What the record says of a key's element
    /// by itself is removed. At an `Err` some numbers may have been appended.
    pub fn append(&self, alloc: Global, fields: &mut Fields) -> Result<(), AllocError>
        ensures { OnOk result (fields.new ≡ numbers.with_numbers self.now fields.old) }
    {
        append_each(alloc, &self.maps, &self.keys, fields)
    }
}

/// Appends what maps append, if there are maps, as [`Maps::append`] does.
pub fn append_numbers(
    alloc: Global,
    maps: Option<&Maps>,
    fields: &mut Fields,
) -> Result<(), AllocError>
    ensures ok { OnOk result (fields.new ≡ numbers.if_mapped maps.entry fields.old) }
    ensures none { maps.entry ≡ None → IsOk result }
{
    match maps {
        Some(maps) => maps.append(alloc, fields),
        None => Ok(()),
    }
}

fn append_each(
    alloc: Global,
    maps: &[PrefixMap],
    mut keys: &[MapKey],
    fields: &mut Fields,
) -> Result<(), AllocError>
    ensures { OnOk result (fields.new ≡ numbers.with_each maps.now keys.entry.now fields.old) }
{
    while let [key, rest @ ..] = keys {
        remove(alloc, key.element, fields)?;
        append_number(maps, key, fields)?;
        keys = rest;
    }
    Ok(())
}

// Appends the number of a key, if the fields have its address.
fn append_number(maps: &[PrefixMap], key: &MapKey, fields: &mut Fields) -> Result<(), AllocError>
    ensures { OnOk result (fields.new ≡ fields.old ++ numbers.numbers_of maps.now key.now fields.old) }
{
    match key.address_in(fields) {
        Some(address) => {
            let number = number_at(maps, key.map, address);
            fields.push(key.element, &number.to_be_bytes())
        }
        None => Ok(()),
    }
}

// The number that the map at a place gives for an address.
fn number_at(maps: &[PrefixMap], place: usize, address: AddressBits) -> u32
    ensures { result ≡ numbers.number_at maps.now place address }
{
    match maps.get(place) {
        Some(map) => map.number_of(address),
        None => 0,
    }
}

/// Removes the fields of an element, if there are any.
pub fn remove(alloc: Global, element: ElementId, fields: &mut Fields) -> Result<(), AllocError>
    ensures { OnOk result (fields.new ≡ numbers.without element fields.old) }
{
    if fields.find(element).is_some() {
        *fields = without(alloc, element, fields)?;
    }
    Ok(())
}

// A copy of the fields but for those of an element. (By itself: few records have one.)
#[inline(never)]
fn without(alloc: Global, element: ElementId, fields: &Fields) -> Result<Fields, AllocError>
    ensures { IfOk result (λ kept. kept ≡ numbers.without element fields.now) }
{
    let mut kept = Fields::new(alloc);
    for field in fields.iter() {
        if field.element != element {
            push(field, &mut kept)?;
        }
    }
    Ok(kept)
}

// Appends a field.
fn push(field: FieldRef, fields: &mut Fields) -> Result<(), AllocError>
    ensures { OnOk result (fields.new ≡ fields.old ++ field_of field.entry ∷ []) }
{
    // None has more.
    if field.octets.len() > MOST_OCTETS {
        return Err(AllocError);
    }
    fields.push(field.element, field.octets)
}
