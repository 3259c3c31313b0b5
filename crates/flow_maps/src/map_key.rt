//! The address that a key looks up.

ghost use Rattle.std.specs.Prelude.{◌≡◌};
ghost use Rattle.flow_maps.specs.Numbers as numbers;

use flow_filter::{Value, value_in};
use ipfix_elements::Kind;
use ipfix_message::Fields;
use ipfix_wire::ElementId;
use network_prefixes::AddressBits;

/// An element whose value is looked up in a map, where it is an address.
#[derive(Clone, Copy, Debug, PartialEq, Eq)]
pub struct AddressElement {
    pub element: ElementId,
    /// The kind that its fields are read by.
    pub kind: Kind,
}

/// A key whose value is the number of a map.
#[derive(Debug, Drop)]
pub struct MapKey {
    /// The element under which the number is appended to a record.
    pub element: ElementId,
    /// The place of its map among others, counted from 0.
    pub map: usize,
    /// The elements whose value is looked up: that of the first of which a record has an address.
    pub addresses: Vec<AddressElement>,
}

impl MapKey {
    /// The address that is looked up, if a record with these fields has one.
    pub fn address_in(&self, fields: &Fields) -> Option<AddressBits>
        ensures { result ≡ numbers.first_address self.now.addresses.items fields.now }
    {
        first_address(&self.addresses, fields)
    }
}

fn first_address(mut elements: &[AddressElement], fields: &Fields) -> Option<AddressBits>
    ensures { result ≡ numbers.first_address elements.entry.now fields.now }
{
    while let [element, rest @ ..] = elements {
        if let Some(address) = address_at(*element, fields) {
            return Some(address);
        }
        elements = rest;
    }
    None
}

// The address in the first field of an element, if it is one.
fn address_at(element: AddressElement, fields: &Fields) -> Option<AddressBits>
    ensures { result ≡ numbers.address_at element fields.now }
{
    match value_in(element.kind, fields.find(element.element)?) {
        Some(Value::Address(address)) => Some(address),
        _ => None,
    }
}
