//! The fields of a data record (RFC 7011, section 3.4.3).

ghost use Rattle.std.specs.Prelude.{◌≡◌, ◌==◌, ◌<◌, ◌^◌, [], ◌∷◌, ◌++◌, length, IfOk, OnOk, OnErr, option_copied, slice_get};
ghost use Rattle.std.specs.Arc.{arc_value};
ghost use Rattle.std.specs.Option.{option_map};
ghost use Rattle.ipfix_message.specs.Fields.{octets_of};
ghost use Rattle.ipfix_message.specs.FieldViews.{field_of};
ghost use Rattle.ipfix_message.specs.KeptFields.{IsKept, kept_fields};
ghost use Rattle.ipfix_message.specs.SetRecords.{HasRecordAt, fields_from};

use crate::appended_fields::AppendedFields;
use crate::field_iter::{FieldIter, FieldRef};
use crate::field_run::FieldRun;
use crate::own_fields::OwnFields;
use crate::set_body::SetBody;
use crate::shared_fields::SharedFields;
use ipfix_wire::ElementId;
use std::alloc::{AllocError, Global};
use std::marker::Model;
use std::sync::Arc;

/// How fields are kept.
#[derive(Debug, Drop)]
enum Kept {
    /// There are none.
    Nothing,
    /// They are those of the record that begins at an octet of a data set's body, and others after these.
    InSet(u32, Arc<SetBody, Global>, AppendedFields),
    /// They were pushed.
    Own(Box<OwnFields>),
}

/// The fields of a data record, in the order of its template (RFC 7011, section 3.4.3). Contracts
/// see the list of the fields.
///
/// The records of a data set share the octets of its body and its template: as long as one of them
/// lives, both do. Records can share their last fields, too.
#[derive(Debug, Drop)]
pub struct Fields {
    alloc: Global,
    kept: Kept,
}

impl Model for Fields {
    ghost use Rattle.std.specs.Prelude.{List};
    ghost use Rattle.ipfix_message.specs.Fields.{Field};

    ghost Value = { List Field };

    ghost use Rattle.ipfix_message.specs.KeptFields.{IsKept, kept_fields};

    ghost view = { λ f. kept_fields f.kept };

    ghost invariant = { λ f. IsKept f.kept };
}

// A copy of the fields, with octets of their own.
fn own_copy(alloc: Global, kept: &Kept) -> Result<OwnFields, AllocError>
    requires { IsKept kept.now }
    ensures { IfOk result (λ own. own ≡ kept_fields kept.now) }
{
    match kept {
        Kept::Nothing => OwnFields::with_capacity(alloc, 0, 0),
        Kept::InSet(start, set, appended) => {
            let mut copy = OwnFields::copy(alloc, set.fields_at(*start))?;
            appended.append_to(&mut copy)?;
            Ok(copy)
        }
        Kept::Own(own) => {
            let mut copy = OwnFields::with_capacity(alloc, 0, 0)?;
            copy.extend(own)?;
            Ok(copy)
        }
    }
}

// A field of at most 65,535 octets.
#[inline(never)]
fn first_field(alloc: Global, element: ElementId, octets: &[u8]) -> Result<Kept, AllocError>
    requires { length octets.now < 2 ^ 16 }
    ensures kept { IfOk result IsKept }
    ensures fields { IfOk result (λ kept. kept_fields kept
        ≡ record { element = element; octets = octets.now } ∷ []) }
{
    let mut own = OwnFields::with_capacity(alloc, 1, octets.len())?;
    own.push(element, octets)?;
    Ok(Kept::Own(Box::new(alloc, own)?))
}

// A copy of fields.
#[inline(never)]
fn copied(alloc: Global, fields: &OwnFields) -> Result<Kept, AllocError>
    ensures kept { IfOk result IsKept }
    ensures fields { IfOk result (λ kept. kept_fields kept ≡ fields.now) }
{
    let mut own = OwnFields::with_capacity(alloc, 0, 0)?;
    own.extend(fields)?;
    Ok(Kept::Own(Box::new(alloc, own)?))
}

impl Fields {
    /// No fields. Nothing is allocated before the first.
    pub fn new(alloc: Global) -> Self
        ensures { result ≡ [] }
    {
        Fields {
            alloc,
            kept: Kept::Nothing,
        }
    }

    /// No fields, with room for as many as `fields` of `octets` octets together.
    pub fn with_capacity(alloc: Global, fields: usize, octets: usize) -> Result<Self, AllocError>
        ensures { IfOk result (λ f. f ≡ []) }
    {
        let own = OwnFields::with_capacity(alloc, fields, octets)?;
        let kept = Kept::Own(Box::new(alloc, own)?);
        Ok(Fields { alloc, kept })
    }

    /// The fields of the record that begins at an octet of a data set's body.
    pub(crate) fn in_set(alloc: Global, set: Arc<SetBody, Global>, start: u32) -> Self
        requires { HasRecordAt (arc_value set) start }
        ensures { result ≡ fields_from (arc_value set) start }
    {
        let kept = Kept::InSet(start, set, AppendedFields::none());
        Fields { alloc, kept }
    }

    /// Appends a field of at most 65,535 octets. A record of a data set keeps the octets that it
    /// shares, and gets some of its own for what is appended.
    pub fn push(&mut self, element: ElementId, octets: &[u8]) -> Result<(), AllocError>
        requires { length octets.now < 2 ^ 16 }
        ensures ok { OnOk result (self.new ≡ self.old
            ++ record { element = element; octets = octets.now } ∷ []) }
        ensures err { OnErr result (self.new ≡ self.old) }
    {
        match &mut self.kept {
            Kept::InSet(_, _, appended) => appended.push(self.alloc, element, octets),
            Kept::Own(own) => own.push(element, octets),
            Kept::Nothing => {
                self.kept = first_field(self.alloc, element, octets)?;
                Ok(())
            }
        }
    }

    /// Appends fields that other records have, too. To a record of a data set nothing is copied.
    pub fn extend_shared(&mut self, tail: &mut SharedFields) -> Result<(), AllocError>
        ensures kept { tail.new ≡ tail.old }
        ensures ok { OnOk result (self.new ≡ self.old ++ tail.old) }
        ensures err { OnErr result (self.new ≡ self.old) }
    {
        if tail.is_empty() {
            return Ok(());
        }
        let shared = tail.for_record()?;
        match &mut self.kept {
            Kept::InSet(_, _, appended) => appended.extend_shared(self.alloc, shared),
            Kept::Own(own) => own.extend(&shared),
            Kept::Nothing => {
                self.kept = copied(self.alloc, &shared)?;
                Ok(())
            }
        }
    }

    /// A copy of the fields, which records can share.
    pub fn to_shared(&self) -> Result<SharedFields, AllocError>
        ensures { IfOk result (λ f. f ≡ self.now) }
    {
        Ok(SharedFields::new(self.alloc, own_copy(self.alloc, &self.kept)?))
    }

    /// How many fields there are.
    pub fn len(&self) -> usize
        ensures { result ≡ length self.now }
    {
        self.iter().left()
    }

    /// Whether there are no fields.
    pub fn is_empty(&self) -> bool
        ensures { result ≡ (length self.now == 0) }
    {
        self.len() == 0
    }

    /// The fields in order.
    pub fn iter(&self) -> FieldIter<'_>
        ensures { result ≡ self.now }
    {
        match &self.kept {
            Kept::Nothing => FieldIter::new(FieldRun::empty(), FieldRun::empty(), None),
            Kept::InSet(start, set, appended) => {
                let (fields, last) = appended.parts();
                FieldIter::new(set.fields_at(*start), fields, last)
            }
            Kept::Own(own) => FieldIter::new(own.iter(), FieldRun::empty(), None),
        }
    }

    /// The field at an index, counted from 0. It is found by going over the fields before it.
    pub fn get(&self, index: usize) -> Option<FieldRef<'_>>
        ensures { option_map field_of result ≡ slice_get self.now index }
    {
        self.iter().nth(index)
    }

    /// The octets of the first field of an element.
    #[inline(always)]
    pub fn find(&self, element: ElementId) -> Option<&[u8]>
        ensures { option_copied result ≡ octets_of element self.now }
    {
        match &self.kept {
            Kept::InSet(start, set, appended) => match set.find_at(*start, element) {
                Some(octets) => Some(octets),
                None => appended.find(element),
            },
            Kept::Own(own) => own.find(element),
            Kept::Nothing => None,
        }
    }
}
