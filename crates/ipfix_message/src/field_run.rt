//! Fields that octets spell, in turn (RFC 7011, section 3.4.3).

ghost use Rattle.std.specs.Prelude.{◌≡◌, ◌<◌, ◌^◌, [], false, None, length, option_copied};
ghost use Rattle.std.specs.Iterator.{YieldsFirstBy, item_count};
ghost use Rattle.std.specs.List.{list_any};
ghost use Rattle.ipfix_message.specs.Fields.{octets_of, same_element};
ghost use Rattle.ipfix_message.specs.SpelledFields.{BeginsWithFields, fields_in};
ghost use Rattle.ipfix_message.specs.FieldViews.{field_of};

use crate::field_iter::FieldRef;
use crate::field_value::value_of;
use ipfix_wire::{ElementId, Spec};
use std::marker::Model;

/// The fields that are left of those that octets spell, in order.
#[derive(Debug, Drop)]
pub struct FieldRun<'a> {
    specs: &'a [Spec],
    octets: &'a [u8],
}

impl<'a> Model for FieldRun<'a> {
    ghost use Rattle.std.specs.Prelude.{List};
    ghost use Rattle.ipfix_message.specs.Fields.{Field};
    ghost use Rattle.ipfix_message.specs.SpelledFields.{BeginsWithFields, fields_in};

    ghost Value = { List Field };

    ghost view = { λ it. fields_in it.specs.now it.octets.now };

    ghost invariant = { λ it. BeginsWithFields it.specs.now it.octets.now };
}

// Whether one of the specifiers names an element.
fn names(specs: &[Spec], element: ElementId) -> bool
    ensures { result ≡ list_any (λ spec. same_element spec.element element) specs.now }
{
    specs.iter().any(|spec| spec.element == element)
}

impl<'a> FieldRun<'a> {
    /// The fields of these specifiers with which `octets` begin.
    pub fn new(specs: &'a [Spec], octets: &'a [u8]) -> Self
        requires { BeginsWithFields specs.now octets.now }
        ensures { result ≡ fields_in specs.now octets.now }
    {
        FieldRun { specs, octets }
    }

    /// No fields.
    pub fn empty() -> FieldRun<'a>
        ensures { result ≡ [] }
    {
        FieldRun::new(&[], &[])
    }

    /// Whether one of the fields is of an element. No octets are looked at.
    #[tactic(auto, using(crate::proofs::FieldElements::none_of))]
    pub fn has(&self, element: ElementId) -> bool
        ensures { result ≡ false → octets_of element self.now ≡ None }
    {
        names(self.specs, element)
    }

    /// How many fields are left.
    pub fn left(&self) -> usize
        ensures count { result ≡ length self.now }
        ensures room { result < 2 ^ 63 }
    {
        self.specs.len()
    }
}

impl<'a> Iterator for FieldRun<'a> {
    type Item = FieldRef<'a>;

    ghost next_gives = { YieldsFirstBy field_of (λ rest. rest) };

    ghost remaining = { item_count (λ rest. rest) };

    fn next(&mut self) -> Option<FieldRef<'a>> {
        let (spec, specs) = self.specs.split_first()?;
        let (octets, rest) = value_of(spec.width, self.octets)?;
        self.specs = specs;
        self.octets = rest;
        Some(FieldRef {
            element: spec.element,
            octets,
        })
    }
}

/// The octets of the first field of an element. It is found by going over the fields before it.
pub fn find_element<'a>(fields: FieldRun<'a>, element: ElementId) -> Option<&'a [u8]>
    ensures { option_copied result ≡ octets_of element fields.entry }
{
    for field in fields {
        if field.element == element {
            return Some(field.octets);
        }
    }
    None
}
