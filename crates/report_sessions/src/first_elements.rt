//! The first different elements of those that come one after another.

ghost use Rattle.std.specs.Prelude.{◌≡◌, [], ◌<◌, false, length};
ghost use Rattle.report_sessions.specs.FirstElements.{with_element};

use ipfix_wire::ElementId;
use std::marker::Model;

/// The most elements that a line names.
pub const MOST_NAMED: usize = 64;

/// The first different elements of those that came one after another, and whether there were more. It
/// takes no memory.
#[derive(Drop)]
pub struct FirstElements {
    elements: [ElementId; MOST_NAMED],
    count: usize,
    has_more: bool,
}

impl Model for FirstElements {
    ghost use Rattle.std.specs.Prelude.{◌≡◌, ◌≤◌, length, take};
    ghost use Rattle.report_sessions.specs.UnnamedElements.{ElementsView};
    ghost use Rattle.report_sessions.specs.declared.first_elements.TheConstants.{MOST_NAMED};

    ghost Value = { ElementsView };

    ghost view = { λ f. record { first = take f.count f.elements; more = f.has_more } };

    ghost invariant = { λ f. (f.count ≤ MOST_NAMED) × (length f.elements ≡ MOST_NAMED) };
}

impl FirstElements {
    /// None came yet.
    pub fn new() -> Self
        ensures first { result.first ≡ [] }
        ensures more { result.more ≡ false }
    {
        FirstElements {
            elements: [ElementId { pen: 0, number: 0 }; MOST_NAMED],
            count: 0,
            has_more: false,
        }
    }

    /// The first ones, in the order in which they came.
    pub fn as_slice(&self) -> &[ElementId]
        ensures { result.now ≡ self.now.first }
    {
        &self.elements[..self.count]
    }

    /// Whether there were more.
    pub fn has_more(&self) -> bool
        ensures { result ≡ self.now.more }
    {
        self.has_more
    }

    /// One more comes.
    pub fn add(&mut self, element: ElementId)
        ensures { self.new ≡ with_element self.old element }
    {
        if self.as_slice().contains(&element) {
            return;
        }
        if self.count < MOST_NAMED {
            self.elements[self.count] = element;
            self.count += 1;
        } else {
            self.has_more = true;
        }
    }
}
