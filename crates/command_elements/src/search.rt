//! What the list of elements is asked for.

use element_registry::{ElementKind, Elements};
use ipfix_wire::ElementId;

/// The elements that are known, and the word that those which are listed fit; without one each does.
#[derive(Clone, Copy)]
pub struct Search<'a> {
    pub elements: &'a Elements,
    pub word: Option<&'a str>,
}

/// An element, its name, and how its fields are read.
#[derive(Clone, Copy)]
pub struct Listed<'a> {
    pub element: ElementId,
    pub name: &'a str,
    pub kind: ElementKind,
}
