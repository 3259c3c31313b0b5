//! A few short fields in one block (RFC 7011, section 3.4.3).

ghost use Rattle.std.specs.Prelude.{◌≡◌, [], ◌∷◌, ◌++◌, length, true, false, OnOk, OnErr, option_copied};
ghost use Rattle.ipfix_message.specs.Fields.{octets_of};

use crate::field_run::{FieldRun, find_element};
use crate::own_fields::OwnFields;
use ipfix_wire::{ElementId, Spec};
use std::alloc::AllocError;
use std::marker::Model;

// How many fields there are at most, and how many octets they have together: an address, and two
// numbers.
const MOST_FIELDS: usize = 3;

const MOST_OCTETS: usize = 28;

// What stands where there is no field.
const NO_FIELD: Spec = Spec {
    element: ElementId { pen: 0, number: 0 },
    width: 0,
};

/// A few fields, spelled as in a data set. Contracts see the list of the fields.
#[derive(Debug, Drop)]
pub struct ShortFields {
    specs: [Spec; MOST_FIELDS],
    octets: [u8; MOST_OCTETS],
    fields: usize,
    used: usize,
}

impl Model for ShortFields {
    ghost use Rattle.std.specs.Prelude.{List, ◌≤◌, take};
    ghost use Rattle.ipfix_message.specs.Fields.{Field};
    ghost use Rattle.ipfix_message.specs.SpelledFields.{Spells, fields_in};

    ghost Value = { List Field };

    ghost view = { λ f. fields_in (take f.fields f.specs) (take f.used f.octets) };

    ghost invariant = { λ f. (f.fields ≤ 3) × (f.used ≤ 28)
        × Spells (take f.fields f.specs) (fields_in (take f.fields f.specs) (take f.used f.octets)) (take f.used f.octets) };
}

impl ShortFields {
    /// No fields.
    pub fn new() -> Self
        ensures { result ≡ [] }
    {
        ShortFields {
            specs: [NO_FIELD; MOST_FIELDS],
            octets: [0; MOST_OCTETS],
            fields: 0,
            used: 0,
        }
    }

    /// Appends a field, and answers `true`, or `false` if there is no room for it.
    pub fn push(&mut self, element: ElementId, octets: &[u8]) -> bool
        ensures room { result ≡ true → self.new ≡ self.old
            ++ record { element = element; octets = octets.now } ∷ [] }
        ensures none { result ≡ false → self.new ≡ self.old }
    {
        if self.fields == MOST_FIELDS || octets.len() > MOST_OCTETS - self.used {
            return false;
        }
        let width = octets.len() as u16;
        let end = self.used + octets.len();
        self.specs[self.fields] = Spec { element, width };
        self.octets[self.used..end].copy_from_slice(octets);
        self.fields += 1;
        self.used = end;
        true
    }

    /// Appends fields, and answers `true`, or `false` if there is no room for all.
    pub fn extend(&mut self, fields: FieldRun) -> bool
        ensures { result ≡ true → self.new ≡ self.old ++ fields.entry }
    {
        for field in fields {
            if !self.push(field.element, field.octets) {
                return false;
            }
        }
        true
    }

    /// The fields in order.
    pub fn iter(&self) -> FieldRun<'_>
        ensures { result ≡ self.now }
    {
        FieldRun::new(&self.specs[..self.fields], &self.octets[..self.used])
    }

    /// The octets of the first field of an element. No octets are looked at if there is none.
    #[inline]
    pub fn find(&self, element: ElementId) -> Option<&[u8]>
        ensures { option_copied result ≡ octets_of element self.now }
    {
        if self.iter().has(element) {
            self.first_of(element)
        } else {
            None
        }
    }

    // The octets of the first field of an element.
    #[inline(never)]
    fn first_of(&self, element: ElementId) -> Option<&[u8]>
        ensures { option_copied result ≡ octets_of element self.now }
    {
        find_element(self.iter(), element)
    }

    /// Appends a copy of these fields to others.
    pub fn append_to(&self, own: &mut OwnFields) -> Result<(), AllocError>
        ensures ok { OnOk result (own.new ≡ own.old ++ self.now) }
        ensures err { OnErr result (own.new ≡ own.old) }
    {
        own.extend_spelled(&self.specs[..self.fields], &self.octets[..self.used])
    }
}
