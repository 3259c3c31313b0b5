//! The fields that are appended to a record of a data set.

ghost use Rattle.std.specs.Prelude.{◌≡◌, ◌<◌, ◌^◌, [], ◌∷◌, ◌++◌, length, true, false, IfOk, IfSome, OnOk, OnErr, option_copied};
ghost use Rattle.std.specs.Arc.{arc_value};
ghost use Rattle.ipfix_message.specs.Fields.{octets_of};
ghost use Rattle.ipfix_message.specs.FieldViews.{last_field};
ghost use Rattle.ipfix_message.specs.AppendedFields.{fields_of, number_field};

use crate::field_iter::FieldRef;
use crate::field_run::FieldRun;
use crate::own_fields::OwnFields;
use crate::short_fields::ShortFields;
use ipfix_wire::ElementId;
use std::alloc::{AllocError, Global};
use std::marker::Model;
use std::mem;
use std::sync::Arc;

/// A field of 4 octets. (The octets stand first, so that less room is lost between a record's parts.)
#[derive(Clone, Copy, Debug)]
pub struct NumberField {
    octets: [u8; 4],
    element: ElementId,
}

/// How they are kept.
#[derive(Debug, Drop)]
enum Appended {
    /// There are none.
    Nothing,
    /// Other records share them.
    Shared(Arc<OwnFields, Global>),
    /// One of 4 octets, as the number of a map is.
    Number(NumberField),
    /// One of 4 octets, after those that other records share.
    NumberAfter(NumberField, Arc<OwnFields, Global>),
    /// A few short ones.
    Short(Box<ShortFields>),
    /// Any others.
    Own(Box<OwnFields>),
}

/// The fields after those of a record of a data set. The first that are shared, and one of 4 octets after them, take
/// no block of memory. Contracts see the list of the fields.
#[derive(Debug, Drop)]
pub struct AppendedFields {
    appended: Appended,
}

impl Model for AppendedFields {
    ghost use Rattle.std.specs.Prelude.{List};
    ghost use Rattle.ipfix_message.specs.Fields.{Field};
    ghost use Rattle.ipfix_message.specs.AppendedFields.{fields_of};

    ghost Value = { List Field };

    ghost view = { λ f. fields_of f.appended };
}

// The fields, but for a last one that is kept by itself; and this one, if there is one.
fn parts_of(appended: &Appended) -> (FieldRun<'_>, Option<FieldRef<'_>>)
    ensures { result.0 ++ last_field result.1 ≡ fields_of appended.now }
{
    match appended {
        Appended::Nothing => (FieldRun::empty(), None),
        Appended::Shared(shared) => (shared.iter(), None),
        Appended::Number(number) => (FieldRun::empty(), Some(number.as_field())),
        Appended::NumberAfter(number, shared) => (shared.iter(), Some(number.as_field())),
        Appended::Short(short) => (short.iter(), None),
        Appended::Own(own) => (own.iter(), None),
    }
}

impl NumberField {
    fn as_field(&self) -> FieldRef<'_>
        ensures { (result.element ≡ self.now.element) × (result.octets.now ≡ self.now.octets) }
    {
        FieldRef {
            element: self.element,
            octets: &self.octets,
        }
    }
}

// The octets of a field, if it is one of the element that is sought.
fn find_number(number: &NumberField, element: ElementId) -> Option<&[u8]>
    ensures { option_copied result ≡ octets_of element (number_field number.now ∷ []) }
{
    if number.element == element {
        Some(&number.octets)
    } else {
        None
    }
}

// The octets of the first field of an element among shared ones, or else those of a field, if it is one.
fn find_before<'a>(
    shared: &'a OwnFields,
    number: &'a NumberField,
    element: ElementId,
) -> Option<&'a [u8]>
    ensures { option_copied result
        ≡ octets_of element (shared.now ++ number_field number.now ∷ []) }
{
    match shared.find(element) {
        Some(octets) => Some(octets),
        None => find_number(number, element),
    }
}

// The octets of the first field of an element. (Each way by itself: a search that finds nothing is short then.)
#[inline(never)]
fn find_in(appended: &Appended, element: ElementId) -> Option<&[u8]>
    ensures { option_copied result ≡ octets_of element (fields_of appended.now) }
{
    match appended {
        Appended::Nothing => None,
        Appended::Shared(shared) => shared.find(element),
        Appended::Number(number) => find_number(number, element),
        Appended::NumberAfter(number, shared) => find_before(shared, number, element),
        Appended::Short(short) => short.find(element),
        Appended::Own(own) => own.find(element),
    }
}

// Appends a field of 4 octets to none or to shared ones, and answers whether it did.
fn push_number(appended: &mut Appended, element: ElementId, octets: &[u8]) -> bool
    ensures pushed { result ≡ true → fields_of appended.new
        ≡ fields_of appended.old ++ record { element = element; octets = octets.now } ∷ [] }
    ensures same { result ≡ false → appended.new ≡ appended.old }
{
    let Ok(octets) = <[u8; 4]>::try_from(octets) else {
        return false;
    };
    let number = NumberField { octets, element };
    match mem::replace(appended, Appended::Nothing) {
        Appended::Nothing => *appended = Appended::Number(number),
        Appended::Shared(shared) => *appended = Appended::NumberAfter(number, shared),
        other => {
            *appended = other;
            return false;
        }
    }
    true
}

// Appends a field, if there is one, and answers whether there was room for it.
fn push_last(last: Option<FieldRef<'_>>, short: &mut ShortFields) -> bool
    ensures { result ≡ true → short.new ≡ short.old ++ last_field last.entry }
{
    match last {
        Some(field) => short.push(field.element, field.octets),
        None => true,
    }
}

// The fields and one more in a block, if they are few and short.
fn short_copy(appended: &Appended, element: ElementId, octets: &[u8]) -> Option<ShortFields>
    ensures { IfSome result (λ short. short
        ≡ fields_of appended.now ++ record { element = element; octets = octets.now } ∷ []) }
{
    let (fields, last) = parts_of(appended);
    let mut short = ShortFields::new();
    if short.extend(fields) && push_last(last, &mut short) && short.push(element, octets) {
        Some(short)
    } else {
        None
    }
}

// A copy of the fields, with room for one more of some octets.
fn own_copy(alloc: Global, appended: &Appended, octets: usize) -> Result<OwnFields, AllocError>
    ensures { IfOk result (λ own. own ≡ fields_of appended.now) }
{
    let mut copy = OwnFields::with_capacity(alloc, 1, octets)?;
    append_to(appended, &mut copy)?;
    Ok(copy)
}

// Appends a copy of the fields to others.
fn append_to(appended: &Appended, own: &mut OwnFields) -> Result<(), AllocError>
    ensures { OnOk result (own.new ≡ own.old ++ fields_of appended.now) }
{
    match appended {
        Appended::Nothing => Ok(()),
        Appended::Shared(shared) => own.extend(shared),
        Appended::Number(number) => own.push(number.element, &number.octets),
        Appended::NumberAfter(number, shared) => {
            own.extend(shared)?;
            own.push(number.element, &number.octets)
        }
        Appended::Short(short) => short.append_to(own),
        Appended::Own(fields) => own.extend(fields),
    }
}

impl AppendedFields {
    /// No fields.
    pub fn none() -> Self
        ensures { result ≡ [] }
    {
        AppendedFields {
            appended: Appended::Nothing,
        }
    }

    /// The fields, but for a last one that is kept by itself; and this one, if there is one.
    pub fn parts(&self) -> (FieldRun<'_>, Option<FieldRef<'_>>)
        ensures { result.0 ++ last_field result.1 ≡ self.now }
    {
        parts_of(&self.appended)
    }

    /// Appends a field of at most 65,535 octets.
    pub fn push(
        &mut self,
        alloc: Global,
        element: ElementId,
        octets: &[u8],
    ) -> Result<(), AllocError>
        requires { length octets.now < 2 ^ 16 }
        ensures ok { OnOk result (self.new ≡ self.old
            ++ record { element = element; octets = octets.now } ∷ []) }
        ensures err { OnErr result (self.new ≡ self.old) }
    {
        match &mut self.appended {
            Appended::Short(short) => {
                if short.push(element, octets) {
                    return Ok(());
                }
            }
            Appended::Own(own) => return own.push(element, octets),
            appended => {
                if push_number(appended, element, octets) {
                    return Ok(());
                }
            }
        }
        self.push_to_copy(alloc, element, octets)
    }

    // Copies the fields into a block, with one more of at most 65,535 octets. (By itself: what is called for each
    // record clears no room for it.)
    #[inline(never)]
    fn push_to_copy(
        &mut self,
        alloc: Global,
        element: ElementId,
        octets: &[u8],
    ) -> Result<(), AllocError>
        requires { length octets.now < 2 ^ 16 }
        ensures ok { OnOk result (self.new ≡ self.old
            ++ record { element = element; octets = octets.now } ∷ []) }
        ensures err { OnErr result (self.new ≡ self.old) }
    {
        if let Some(short) = short_copy(&self.appended, element, octets) {
            self.appended = Appended::Short(Box::new(alloc, short)?);
            return Ok(());
        }
        let mut own = own_copy(alloc, &self.appended, octets.len())?;
        own.push(element, octets)?;
        self.appended = Appended::Own(Box::new(alloc, own)?);
        Ok(())
    }

    /// Appends fields that other records have, too. After none nothing is copied.
    pub fn extend_shared(
        &mut self,
        alloc: Global,
        shared: Arc<OwnFields, Global>,
    ) -> Result<(), AllocError>
        ensures ok { OnOk result (self.new ≡ self.old ++ arc_value shared) }
        ensures err { OnErr result (self.new ≡ self.old) }
    {
        if let Appended::Nothing = &self.appended {
            self.appended = Appended::Shared(shared);
            return Ok(());
        }
        self.extend_copy(alloc, &shared)
    }

    // Copies the fields into a block, and others after them.
    #[inline(never)]
    fn extend_copy(&mut self, alloc: Global, others: &OwnFields) -> Result<(), AllocError>
        ensures ok { OnOk result (self.new ≡ self.old ++ others.now) }
        ensures err { OnErr result (self.new ≡ self.old) }
    {
        let mut own = own_copy(alloc, &self.appended, 0)?;
        own.extend(others)?;
        self.appended = Appended::Own(Box::new(alloc, own)?);
        Ok(())
    }

    /// Appends a copy of these fields to others.
    pub fn append_to(&self, own: &mut OwnFields) -> Result<(), AllocError>
        ensures { OnOk result (own.new ≡ own.old ++ self.now) }
    {
        append_to(&self.appended, own)
    }

    /// The octets of the first field of an element.
    #[inline(always)]
    pub fn find(&self, element: ElementId) -> Option<&[u8]>
        ensures { option_copied result ≡ octets_of element self.now }
    {
        match &self.appended {
            Appended::Nothing => None,
            appended => find_in(appended, element),
        }
    }
}
