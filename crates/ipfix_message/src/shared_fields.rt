//! Fields that come after those of many records.

ghost use Rattle.std.specs.Prelude.{◌≡◌, ◌==◌, length, All, IfOk};
ghost use Rattle.std.specs.Arc.{arc_value};

use crate::own_fields::OwnFields;
use std::alloc::{AllocError, Global};
use std::marker::Model;
use std::sync::Arc;

// How many records more than one share a copy of the fields, at most.
const MOST_BESIDE: usize = 255;

/// Fields that records share as their last ones. Contracts see the list of the fields.
///
/// [`Fields::to_shared`](crate::Fields::to_shared) makes them,
/// [`Fields::extend_shared`](crate::Fields::extend_shared) appends them.
#[derive(Debug, Drop)]
pub struct SharedFields {
    alloc: Global,
    fields: OwnFields,
    // A copy of them, for each of the next records. Records are often let go by another thread than this: a
    // copy that all of them shared would be counted by both, and go from processor to processor for each.
    ready: Vec<Arc<OwnFields, Global>>,
    // For how many more records the next copy is made: about as many as there were.
    beside: usize,
}

impl Model for SharedFields {
    ghost use Rattle.std.specs.Prelude.{◌≡◌, List, All};
    ghost use Rattle.std.specs.Arc.{arc_value};
    ghost use Rattle.ipfix_message.specs.Fields.{Field};

    ghost Value = { List Field };

    ghost view = { λ f. f.fields };

    ghost invariant = { λ f. All (λ a. arc_value a ≡ f.fields) f.ready.items };
}

// Makes fields ready for as many records.
fn make_ready(
    fields: &Arc<OwnFields, Global>,
    records: usize,
    ready: &mut Vec<Arc<OwnFields, Global>>,
) -> Result<(), AllocError>
    requires { All (λ a. arc_value a ≡ arc_value fields.now) ready.old.items }
    ensures { All (λ a. arc_value a ≡ arc_value fields.now) ready.new.items }
{
    ready.reserve(records)?;
    for _ in 0..records {
        ready.push(Arc::try_clone(fields)?)?;
    }
    Ok(())
}

impl SharedFields {
    /// These fields, to be shared.
    pub(crate) fn new(alloc: Global, fields: OwnFields) -> Self
        ensures { result ≡ fields }
    {
        SharedFields {
            alloc,
            fields,
            ready: Vec::new(alloc),
            beside: 0,
        }
    }

    /// The same fields, for a record. A copy is made for many records at once. The error comes where there
    /// is no memory for it.
    pub(crate) fn for_record(&mut self) -> Result<Arc<OwnFields, Global>, AllocError>
        ensures kept { self.new ≡ self.old }
        ensures same { IfOk result (λ fields. arc_value fields ≡ self.old) }
    {
        match self.ready.pop() {
            Some(fields) => Ok(fields),
            None => self.copy(),
        }
    }

    // A copy of the fields, for a record and for some of the next ones.
    #[inline(never)]
    fn copy(&mut self) -> Result<Arc<OwnFields, Global>, AllocError>
        ensures kept { self.new ≡ self.old }
        ensures same { IfOk result (λ fields. arc_value fields ≡ self.old) }
    {
        let mut copy = OwnFields::with_capacity(self.alloc, 0, 0)?;
        copy.extend(&self.fields)?;
        let copy = Arc::new(self.alloc, copy)?;
        make_ready(&copy, self.beside, &mut self.ready)?;
        if self.beside < MOST_BESIDE {
            self.beside = 2 * self.beside + 1;
        }
        Ok(copy)
    }

    /// Whether there are no fields.
    pub(crate) fn is_empty(&self) -> bool
        ensures { result ≡ (length self.now == 0) }
    {
        self.fields.is_empty()
    }
}
