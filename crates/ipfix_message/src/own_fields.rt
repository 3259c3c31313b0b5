//! Fields that are pushed one by one (RFC 7011, section 3.4.3).

ghost use Rattle.std.specs.Prelude.{◌≡◌, ◌==◌, ◌<◌, ◌^◌, [], ◌∷◌, ◌++◌, ℕ, List, length, All, IfOk, OnOk, OnErr, option_copied};
ghost use Rattle.ipfix_message.specs.Fields.{octets_of};
ghost use Rattle.ipfix_message.specs.SpelledFields.{Spells, SpellsOctets, IsShort, fields_in};

use crate::apart::{APART, Apart};
use crate::field_run::{FieldRun, find_element};
use ipfix_wire::{ElementId, Spec, VARIABLE_WIDTH};
use std::alloc::{AllocError, Global};
use std::marker::Model;

// The length of a field of 65,535 octets, as such a field begins with it (RFC 7011, section 7).
const GREATEST_LENGTH: [u8; 3] = [255; 3];

/// Fields with specifiers and octets of their own, spelled as in a data set. Contracts see the list
/// of the fields.
#[derive(Debug, Drop)]
pub struct OwnFields {
    apart: Apart,
    specs: Vec<Spec>,
    octets: Vec<u8>,
}

impl Model for OwnFields {
    ghost use Rattle.std.specs.Prelude.{List};
    ghost use Rattle.ipfix_message.specs.Fields.{Field};
    ghost use Rattle.ipfix_message.specs.SpelledFields.{Spells, fields_in};

    ghost Value = { List Field };

    ghost view = { λ f. fields_in f.specs.items f.octets.items };

    ghost invariant = { λ f.
        Spells f.specs.items (fields_in f.specs.items f.octets.items) f.octets.items };
}

// Appends what spells the octets of a field whose width is their number: the octets themselves, or
// where that number stands for variable length, it and then the octets.
fn append_spelled(octets: &[u8], out: &mut Vec<u8>) -> Result<(), AllocError>
    requires { length octets.now < 2 ^ 16 }
    ensures ok { OnOk result ((w : List ℕ) × SpellsOctets (length octets.now) octets.now w
        × (out.new.items ≡ out.old.items ++ w)) }
    ensures err { OnErr result (out.new.items ≡ out.old.items) }
{
    if octets.len() < usize::from(VARIABLE_WIDTH) {
        return out.extend_from_slice(octets);
    }
    out.reserve(GREATEST_LENGTH.len() + octets.len())?;
    out.extend_from_slice(&GREATEST_LENGTH)?;
    out.extend_from_slice(octets)
}

impl OwnFields {
    /// No fields, with room for as many as `fields` of `octets` octets together.
    pub fn with_capacity(alloc: Global, fields: usize, octets: usize) -> Result<Self, AllocError>
        ensures { IfOk result (λ f. f ≡ []) }
    {
        Ok(OwnFields {
            apart: APART,
            specs: Vec::with_capacity(alloc, fields)?,
            octets: Vec::with_capacity(alloc, octets)?,
        })
    }

    /// A copy of these fields.
    pub fn copy(alloc: Global, fields: FieldRun) -> Result<Self, AllocError>
        requires { All IsShort fields }
        ensures { IfOk result (λ f. f ≡ fields.entry) }
    {
        let mut own = OwnFields::with_capacity(alloc, fields.left(), 0)?;
        for field in fields {
            own.push(field.element, field.octets)?;
        }
        Ok(own)
    }

    /// Appends a field of at most 65,535 octets.
    pub fn push(&mut self, element: ElementId, octets: &[u8]) -> Result<(), AllocError>
        requires { length octets.now < 2 ^ 16 }
        ensures ok { OnOk result (self.new ≡ self.old
            ++ record { element = element; octets = octets.now } ∷ []) }
        ensures err { OnErr result (self.new ≡ self.old) }
    {
        let width = octets.len() as u16;
        self.specs.reserve(1)?;
        append_spelled(octets, &mut self.octets)?;
        self.specs.push_reserved(Spec { element, width });
        Ok(())
    }

    /// Appends a copy of other fields.
    pub fn extend(&mut self, other: &OwnFields) -> Result<(), AllocError>
        ensures ok { OnOk result (self.new ≡ self.old ++ other.now) }
        ensures err { OnErr result (self.new ≡ self.old) }
    {
        self.extend_spelled(&other.specs, &other.octets)
    }

    /// Appends a copy of the fields of these specifiers that octets spell.
    pub fn extend_spelled(&mut self, specs: &[Spec], octets: &[u8]) -> Result<(), AllocError>
        requires { Spells specs.now (fields_in specs.now octets.now) octets.now }
        ensures ok { OnOk result (self.new ≡ self.old ++ fields_in specs.now octets.now) }
        ensures err { OnErr result (self.new ≡ self.old) }
    {
        self.specs.reserve(specs.len())?;
        self.octets.extend_from_slice(octets)?;
        self.specs.extend_from_slice(specs)
    }

    /// Whether there are no fields.
    pub fn is_empty(&self) -> bool
        ensures { result ≡ (length self.now == 0) }
    {
        self.iter().left() == 0
    }

    /// The fields in order.
    pub fn iter(&self) -> FieldRun<'_>
        ensures { result ≡ self.now }
    {
        FieldRun::new(self.specs.as_slice(), self.octets.as_slice())
    }

    /// The octets of the first field of an element. No octets are looked at if there is none.
    #[inline]
    pub fn find(&self, element: ElementId) -> Option<&[u8]>
        ensures { option_copied result ≡ octets_of element self.now }
    {
        if self.iter().has(element) {
            self.first_of(element)
        } else {
            None
        }
    }

    // The octets of the first field of an element.
    #[inline(never)]
    fn first_of(&self, element: ElementId) -> Option<&[u8]>
        ensures { option_copied result ≡ octets_of element self.now }
    {
        find_element(self.iter(), element)
    }
}
