//! What stands before the values of fields, kept for the records that follow.

ghost use Rattle.std.specs.Prelude.{◌≡◌, ◌++◌, All, None, IfOk, IfSome, OnOk, slice_set, vec_len, ◌<◌, Some};
ghost use Rattle.element_registry.specs.Registries.{element_kind};
ghost use Rattle.ipfix_dump.specs.LineParts.{IsKept, IsLabel};

use crate::label::Label;
use crate::line_octets::LineOctets;
use crate::options::Form;
use element_registry::{ElementKind, Elements};
use ipfix_wire::ElementId;
use std::alloc::{AllocError, Global};

/// As many labels are kept. Each of IANA's elements has a place of its own.
const PLACES: u32 = 1024;

/// The labels of the fields that were appended, each in the place of its element, up to another one of this place.
#[derive(Drop)]
pub struct Labels<'a> {
    alloc: Global,
    pub elements: &'a Elements,
    pub form: Form,
    kept: Vec<Option<Label>>,
    ghost labels_are: { All (IsKept form elements.now) kept.items },
}

impl<'a> Labels<'a> {
    ghost use Rattle.ipfix_dump.specs.Labelled.{label_by};

    /// None yet.
    pub fn new(alloc: Global, elements: &'a Elements, form: Form) -> Self
        ensures elements { result.elements.now ≡ elements.now }
        ensures form { result.form ≡ form }
    {
        Labels {
            alloc,
            elements,
            form,
            kept: Vec::new(alloc),
        }
    }

    /// Appends what stands before the value of an element, and answers the kind that it is read by.
    #[inline(always)]
    pub fn append(
        &mut self,
        element: ElementId,
        out: &mut LineOctets,
    ) -> Result<ElementKind, AllocError>
        ensures kind { IfOk result (λ kind. kind ≡ element_kind self.old.elements.now element) }
        ensures text { OnOk result (out.new ≡ out.old ++ label_by self.old element) }
        ensures elements { self.new.elements.now ≡ self.old.elements.now }
        ensures form { self.new.form ≡ self.old.form }
    {
        match self.kept_of(element) {
            Some(label) => {
                out.append(label.text.as_slice())?;
                Ok(label.kind)
            }
            None => self.append_new(element, out),
        }
    }

    // The label that is kept of an element.
    fn kept_of(&self, element: ElementId) -> Option<&Label>
        ensures { IfSome result (λ label.
            IsLabel self.now.form self.now.elements.now element label.now) }
    {
        match self.kept.get(place_of(element)) {
            Some(Some(label)) if label.element == element => Some(label),
            _ => None,
        }
    }

    // The same of an element of which no label is kept. It is from now on.
    #[inline(never)]
    fn append_new(
        &mut self,
        element: ElementId,
        out: &mut LineOctets,
    ) -> Result<ElementKind, AllocError>
        ensures kind { IfOk result (λ kind. kind ≡ element_kind self.old.elements.now element) }
        ensures text { OnOk result (out.new ≡ out.old ++ label_by self.old element) }
        ensures elements { self.new.elements.now ≡ self.old.elements.now }
        ensures form { self.new.form ≡ self.old.form }
    {
        let label = Label::of(self.alloc, self.elements, self.form, element)?;
        out.append(label.text.as_slice())?;
        let kind = label.kind;
        self.make_places()?;
        self.keep(label);
        Ok(kind)
    }

    // Makes the places, before the first label is kept.
    fn make_places(&mut self) -> Result<(), AllocError>
        ensures elements { self.new.elements.now ≡ self.old.elements.now }
        ensures form { self.new.form ≡ self.old.form }
    {
        if self.kept.is_empty() {
            self.kept = places(self.alloc)?;
        }
        Ok(())
    }

    // Keeps a label in the place of its element.
    fn keep(&mut self, label: Label)
        requires { IsLabel self.old.form self.old.elements.now label.element label }
        ensures elements { self.new.elements.now ≡ self.old.elements.now }
        ensures form { self.new.form ≡ self.old.form }
    {
        let place = place_of(label.element);
        if place < self.kept.len() {
            put(&mut self.kept, place, label);
        }
    }
}

fn place_of(element: ElementId) -> usize {
    (element.pen.wrapping_add(u32::from(element.number)) % PLACES) as usize
}

// Places without labels.
fn places(alloc: Global) -> Result<Vec<Option<Label>>, AllocError>
    ensures { IfOk result (λ places. All (λ kept. kept ≡ None) places.items) }
{
    let mut places = Vec::new(alloc);
    for _ in 0..PLACES {
        places.push(None)?;
    }
    Ok(places)
}

fn put(kept: &mut Vec<Option<Label>>, place: usize, label: Label)
    requires { place < vec_len kept.old }
    ensures { kept.new.items ≡ slice_set kept.old.items place (Some label) }
{
    kept[place] = Some(label);
}
