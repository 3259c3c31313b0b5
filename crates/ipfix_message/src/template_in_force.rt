//! Templates as they are defined, and in force (RFC 7011, section 8).

ghost use Rattle.std.specs.Prelude.{◌≡◌, ◌<◌, ◌↔◌, IsTrue, IfOk};
ghost use Rattle.std.specs.Arc.{arc_value};
ghost use Rattle.ipfix_message.specs.DataRecords;
ghost use Rattle.ipfix_message.specs.WrittenTemplates.{IsTemplate};
ghost use Rattle.ipfix_message.specs.TemplatesInForce;

use crate::laid_out::LaidOut;
use crate::record::Template;
use crate::template_record::TemplateKind;
use ipfix_wire::Spec;
use std::alloc::{AllocError, Global};
use std::marker::Model;
use std::sync::Arc;

/// A template as its record defines it, which has no layout yet, with the least length of its records
/// at hand. Contracts see the template.
#[derive(Drop)]
pub struct Definition {
    template: Template,
    least: usize,
}

impl Model for Definition {
    ghost use Rattle.std.specs.Prelude.{◌≡◌, ◌<◌};
    ghost use Rattle.ipfix_message.specs.declared.record.Template.{Template};
    ghost use Rattle.ipfix_message.specs.DataRecords;
    ghost use Rattle.ipfix_message.specs.WrittenTemplates.{IsTemplate};

    ghost Value = { Template };

    ghost view = { λ d. d.template };

    ghost invariant = { λ d. (d.least ≡ DataRecords.least d.template.specs) × (0 < d.least)
        × IsTemplate d.template };
}

impl Definition {
    pub fn new(template: Template, least: usize) -> Self
        requires sum { least ≡ DataRecords.least template.specs }
        requires positive { 0 < least }
        requires writable { IsTemplate template }
        ensures { result ≡ template }
    {
        Definition { template, least }
    }

    pub fn id(&self) -> u16
        ensures { result ≡ self.now.id }
    {
        self.template.id
    }

    fn template(&self) -> &Template
        ensures { result.now ≡ self.now }
    {
        &self.template
    }

    pub fn is_same(&self, known: &TemplateInForce) -> bool
        ensures { result ≡ TemplatesInForce.same_template self.now known.now }
    {
        is_same_template(self.template(), known.template())
    }
}

/// A template in force, with the least length of its records at hand. Contracts see the template.
#[derive(Drop)]
pub struct TemplateInForce {
    template: Arc<LaidOut, Global>,
    least: usize,
}

impl Model for TemplateInForce {
    ghost use Rattle.std.specs.Prelude.{◌≡◌, ◌<◌};
    ghost use Rattle.std.specs.Arc.{arc_value};
    ghost use Rattle.ipfix_message.specs.declared.record.Template.{Template};
    ghost use Rattle.ipfix_message.specs.DataRecords;
    ghost use Rattle.ipfix_message.specs.WrittenTemplates.{IsTemplate};

    ghost Value = { Template };

    ghost view = { λ k. arc_value k.template };

    ghost invariant = { λ k. (k.least ≡ DataRecords.least (arc_value k.template).specs)
        × (0 < k.least)
        × IsTemplate (arc_value k.template) };
}

impl Clone for TemplateInForce {
    ghost is_clone = { λ t u. u ≡ t };

    fn clone(&self) -> Result<TemplateInForce, AllocError> {
        Ok(TemplateInForce {
            template: self.share()?,
            least: self.least,
        })
    }
}

impl TemplateInForce {
    /// The template of a definition, of whose records the layout is found.
    pub fn new(alloc: Global, definition: Definition) -> Result<Self, AllocError>
        ensures { IfOk result (λ k. k ≡ definition) }
    {
        let Definition { template, least } = definition;
        let template = Arc::new(alloc, LaidOut::new(alloc, template)?)?;
        Ok(TemplateInForce { template, least })
    }

    /// The template.
    pub fn template(&self) -> &Template
        ensures { result.now ≡ self.now }
    {
        self.laid_out().template()
    }

    /// The template, which can be written again: [`append_template`](crate::append_template) takes it,
    /// and a message has room for it.
    pub fn to_write(&self) -> &Template
        ensures same { result.now ≡ self.now }
        ensures writable { IsTemplate self.now }
    {
        // A proof knows the invariant once a field is read.
        let _least = self.least;
        self.laid_out().template()
    }

    /// The template with its layout.
    pub fn laid_out(&self) -> &LaidOut
        ensures { result.now ≡ self.now }
    {
        &self.template
    }

    /// The template with its layout, shared.
    pub fn share(&self) -> Result<Arc<LaidOut, Global>, AllocError>
        ensures { IfOk result (λ template. arc_value template ≡ self.now) }
    {
        Arc::try_clone(&self.template)
    }

    /// The least length of a record.
    pub fn least(&self) -> usize
        ensures sum { result ≡ DataRecords.least self.now.specs }
        ensures positive { 0 < result }
    {
        self.least
    }

    /// Whether it is a template of this kind: an options template has scope fields.
    pub fn is_of(&self, kind: TemplateKind) -> bool
        ensures { result ≡ TemplatesInForce.is_of kind self.now }
    {
        match kind {
            TemplateKind::Plain => self.template().scope == 0,
            TemplateKind::Options => self.template().scope != 0,
        }
    }
}

fn is_same_list(specs: &[Spec], others: &[Spec]) -> bool
    ensures { IsTrue result ↔ (specs.now ≡ others.now) }
{
    specs == others
}

/// Whether two templates are the same: their id, scope field count and field specifiers.
pub fn is_same_template(template: &Template, other: &Template) -> bool
    ensures { IsTrue result ↔ (template.now ≡ other.now) }
{
    template.id == other.id
        && template.scope == other.scope
        && is_same_list(template.specs.as_slice(), other.specs.as_slice())
}
