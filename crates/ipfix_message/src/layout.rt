//! Where the fields of a template's records stand (RFC 7011, sections 3.4.3 and 7).

ghost use Rattle.std.specs.Prelude.{◌≡◌, ◌<◌, ◌^◌, List, length, IfOk, option_copied};
ghost use Rattle.std.specs.Option.{option_map};
ghost use Rattle.std.specs.Ordering.{nat_cmp};
ghost use Rattle.std.specs.BTreeMap.{get};
ghost use Rattle.ipfix_wire.specs.declared.specifier.Spec.{Spec};
ghost use Rattle.ipfix_message.specs.SpelledFields.{unless_cut};
ghost use Rattle.ipfix_message.specs.Layouts;
ghost use Rattle.ipfix_message.specs.Layouts.{IsLayout, after_all, octets_at_place};

use crate::field_value::value_of;
use crate::places::{FieldPlace, Places};
use ipfix_wire::{ElementId, Spec, VARIABLE_WIDTH};
use std::alloc::{AllocError, Global};

/// Where the fields of a template's records stand, found once for all of them: what a record then
/// costs depends on its octets, not on how many specifiers there are.
#[derive(Debug, Drop)]
pub struct Layout {
    // For each field of variable length, the octets of fixed widths since the one before it.
    gaps: Vec<u32>,
    // Those since the last field of variable length.
    last: u32,
    // Where the first field of each element stands.
    places: Places,
}

// What follows that many octets.
fn skip(count: u32, octets: &[u8]) -> Option<&[u8]>
    ensures { unless_cut (option_map (λ r. r.now) result) ≡ Layouts.skip count octets.now }
{
    let count = count as usize;
    if octets.len() < count {
        return None;
    }
    let (_, rest) = octets.split_at(count);
    Some(rest)
}

// What follows a gap and the field of variable length after it.
fn after_gap(gap: u32, octets: &[u8]) -> Option<&[u8]>
    ensures { unless_cut (option_map (λ r. r.now) result) ≡ Layouts.after_gap gap octets.now }
{
    let (_, rest) = value_of(VARIABLE_WIDTH, skip(gap, octets)?)?;
    Some(rest)
}

// What follows these gaps, each with its field.
fn after_gaps<'a>(gaps: &[u32], octets: &'a [u8]) -> Option<&'a [u8]>
    ensures { unless_cut (option_map (λ r. r.now) result) ≡ Layouts.after_gaps gaps.now octets.now }
{
    let mut rest = octets;
    for gap in gaps {
        rest = after_gap(*gap, rest)?;
    }
    Some(rest)
}

impl Layout {
    /// The layout of records of these specifiers.
    pub fn new(alloc: Global, specs: &[Spec]) -> Result<Self, AllocError>
        requires { length specs.now < 2 ^ 16 }
        ensures { IfOk result (λ layout. IsLayout layout specs.now) }
    {
        let mut gaps = Vec::new(alloc);
        let mut last = 0;
        let mut places = Places::new(alloc);
        for spec in specs {
            let place = FieldPlace {
                before: gaps.len() as u16,
                offset: last,
                width: spec.width,
            };
            places.note_first(spec.element, place)?;
            if spec.width == VARIABLE_WIDTH {
                gaps.push(last)?;
                last = 0;
            } else {
                last += u32::from(spec.width);
            }
        }
        Ok(Layout { gaps, last, places })
    }

    /// What follows the record with which these octets begin, or `None` if it is cut.
    pub fn after_record<'a>(&self, octets: &'a [u8]) -> Option<&'a [u8]>
        ensures { unless_cut (option_map (λ r. r.now) result)
            ≡ after_all self.now.gaps.items self.now.last octets.now }
    {
        let rest = after_gaps(&self.gaps, octets)?;
        skip(self.last, rest)
    }

    /// The octets of the first field of an element in a record. Elements that the template doesn't
    /// have cost only a search.
    #[inline(always)]
    pub fn find<'a>(&self, element: ElementId, octets: &'a [u8]) -> Option<&'a [u8]>
        requires { (specs : List Spec) × IsLayout self.now specs }
        ensures { option_copied result ≡ octets_at_place self.now.gaps.items
            (get nat_cmp self.now.places.all (Layouts.key_of element)) octets.now }
    {
        let place = self.places.find(element)?;
        let rest = after_gaps(&self.gaps[..usize::from(place.before)], octets)?;
        let (value, _) = value_of(place.width, skip(place.offset, rest)?)?;
        Some(value)
    }
}
