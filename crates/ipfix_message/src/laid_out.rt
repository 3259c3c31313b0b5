//! A template with the layout of its records (RFC 7011, section 3.4.3).

ghost use Rattle.std.specs.Prelude.{◌≡◌, ◌<◌, ◌^◌, length, All, IfOk, IfErr, OnOk, option_copied};
ghost use Rattle.ipfix_message.specs.Fields.{octets_of};
ghost use Rattle.ipfix_message.specs.Outcome.{Gives};
ghost use Rattle.ipfix_message.specs.declared.fault.MessageFault.TheVariants.{RecordCut};
ghost use Rattle.ipfix_message.specs.SpelledFields.{BeginsWithFields, IsShort, fields_at, fields_in};

use crate::fault::MessageFault;
use crate::layout::Layout;
use crate::record::Template;
use ipfix_wire::ElementId;
use std::alloc::{AllocError, Global};
use std::marker::Model;

/// A template, and where the fields of its records stand. The records of its data sets share it.
/// Contracts see the template.
#[derive(Debug, Drop)]
pub struct LaidOut {
    template: Template,
    layout: Layout,
}

impl Model for LaidOut {
    ghost use Rattle.ipfix_message.specs.declared.record.Template.{Template};
    ghost use Rattle.ipfix_message.specs.Layouts.{IsLayout};

    ghost Value = { Template };

    ghost view = { λ t. t.template };

    ghost invariant = { λ t. IsLayout t.layout t.template.specs };
}

impl LaidOut {
    pub fn new(alloc: Global, template: Template) -> Result<Self, AllocError>
        requires { length template.specs < 2 ^ 16 }
        ensures { IfOk result (λ t. t ≡ template) }
    {
        let layout = Layout::new(alloc, template.specs.as_slice())?;
        Ok(LaidOut { template, layout })
    }

    pub fn template(&self) -> &Template
        ensures { result.now ≡ self.now }
    {
        &self.template
    }

    /// What follows the record with which these octets begin.
    pub fn after_record<'a>(&self, octets: &'a [u8]) -> Result<&'a [u8], MessageFault>
        ensures gives { Gives (λ after. (fields_in self.now.specs octets.now, after.now)) result
            (fields_at self.now.specs octets.now) }
        ensures short { OnOk result (All IsShort (fields_in self.now.specs octets.now)) }
        ensures cut { IfErr result (λ fault. fault ≡ RecordCut) }
    {
        self.layout
            .after_record(octets)
            .ok_or(MessageFault::RecordCut)
    }

    /// The octets of the first field of an element in the record with which these octets begin.
    #[inline(always)]
    pub fn find<'a>(&self, element: ElementId, octets: &'a [u8]) -> Option<&'a [u8]>
        requires { BeginsWithFields self.now.specs octets.now }
        ensures { option_copied result ≡ octets_of element (fields_in self.now.specs octets.now) }
    {
        self.layout.find(element, octets)
    }
}
