//! What stands before the value of a field.

ghost use Rattle.std.specs.Prelude.{◌≡◌, ◌++◌, IfOk, OnOk};
ghost use Rattle.ipfix_dump.specs.LineParts.{before_name as before_in, behind_name as behind_in, label_text, IsLabel};

use crate::options::Form;
use element_registry::{ElementKind, Elements};
use ipfix_wire::ElementId;
use std::alloc::{AllocError, Global};

/// Room for each name that an element has built in, with what stands around it.
const TEXT_ROOM: usize = 48;

impl Form {
    fn before_name(self) -> &'static str
        ensures { result.now ≡ before_in self }
    {
        match self {
            Form::Text => " ",
            Form::Json => "{\"name\":\"",
        }
    }

    fn behind_name(self) -> &'static str
        ensures { result.now ≡ behind_in self }
    {
        match self {
            Form::Text => "=",
            Form::Json => "\",\"value\":",
        }
    }
}

/// What stands before the values of an element, and their kind.
#[derive(Drop)]
pub struct Label {
    pub element: ElementId,
    pub kind: ElementKind,
    pub text: Vec<u8>,
}

impl Label {
    /// The label of an element.
    pub fn of(
        alloc: Global,
        elements: &Elements,
        form: Form,
        element: ElementId,
    ) -> Result<Self, AllocError>
        ensures element { IfOk result (λ label. label.element ≡ element) }
        ensures label { IfOk result (λ label. IsLabel form elements.now element label) }
    {
        let mut text = Vec::with_capacity(alloc, TEXT_ROOM)?;
        append_label(elements, form, element, &mut text)?;
        Ok(Label {
            element,
            kind: elements.kind_of(element),
            text,
        })
    }
}

fn append_label(
    elements: &Elements,
    form: Form,
    element: ElementId,
    out: &mut Vec<u8>,
) -> Result<(), AllocError>
    ensures { OnOk result (out.new.items ≡ out.old.items ++ label_text form elements.now element) }
{
    out.extend_from_slice(form.before_name().as_bytes())?;
    // A vector fails only if memory runs out.
    elements.write_name(element, out).map_err(|_| AllocError)?;
    out.extend_from_slice(form.behind_name().as_bytes())
}
