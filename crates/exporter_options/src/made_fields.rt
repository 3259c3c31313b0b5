//! The fields of what is known beside a record, made once for all records that have the same.

ghost use Rattle.std.specs.Prelude.{◌≡◌, ◌++◌, IfOk, OnErr, OnOk};
ghost use Rattle.exporter_options.specs.Beside.{fields_beside};

use crate::beside::{Beside, NOTHING_BESIDE, fields_of};
use ipfix_message::{Fields, SharedFields};
use std::alloc::{AllocError, Global};
use std::marker::Model;

/// Fields that records share. Contracts see what they say.
#[derive(Drop)]
pub struct MadeFields {
    beside: Beside,
    fields: SharedFields,
}

impl Model for MadeFields {
    ghost use Rattle.std.specs.Prelude.{◌≡◌};
    ghost use Rattle.exporter_options.specs.Beside.{fields_beside};
    ghost use Rattle.exporter_options.specs.declared.beside.Beside.{Beside};

    ghost Value = { Beside };

    ghost view = { λ f. f.beside };

    ghost invariant = { λ f. f.fields ≡ fields_beside f.beside };
}

impl MadeFields {
    /// Those of nothing.
    pub fn new(alloc: Global) -> Result<Self, AllocError>
        ensures { IfOk result (λ f. f ≡ NOTHING_BESIDE) }
    {
        let fields = fields_of(alloc, NOTHING_BESIDE)?.to_shared()?;
        Ok(MadeFields {
            beside: NOTHING_BESIDE,
            fields,
        })
    }

    /// Makes those of what is known now, unless they are made already.
    pub fn change_to(&mut self, alloc: Global, beside: Beside) -> Result<(), AllocError>
        ensures ok { OnOk result (self.new ≡ beside) }
        ensures err { OnErr result (self.new ≡ self.old) }
    {
        if self.beside != beside {
            self.fields = fields_of(alloc, beside)?.to_shared()?;
            self.beside = beside;
        }
        Ok(())
    }

    /// Appends them to a record's.
    pub fn append_to(&mut self, fields: &mut Fields) -> Result<(), AllocError>
        ensures kept { self.new ≡ self.old }
        ensures ok { OnOk result (fields.new ≡ fields.old ++ fields_beside self.old) }
        ensures err { OnErr result (fields.new ≡ fields.old) }
    {
        fields.extend_shared(&mut self.fields)
    }
}
