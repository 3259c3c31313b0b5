//! The fields of a data record in turn (RFC 7011, section 3.4.3).

ghost use Rattle.std.specs.Prelude.{◌≡◌, ◌++◌, length};
ghost use Rattle.std.specs.Iterator.{YieldsFirstBy, item_count};
ghost use Rattle.ipfix_message.specs.FieldViews.{field_of, last_field};

use crate::field_run::FieldRun;
use ipfix_wire::ElementId;
use std::marker::Model;

/// A field of a data record.
#[derive(Clone, Copy, Debug)]
pub struct FieldRef<'a> {
    /// The information element.
    pub element: ElementId,
    /// The octets of the value, at most 65,535. The length that a variable-length field begins with
    /// (RFC 7011, section 7) is not among them.
    pub octets: &'a [u8],
}

/// The fields of a data record that are left, in order.
#[derive(Debug, Drop)]
pub struct FieldIter<'a> {
    // The record's own.
    own: FieldRun<'a>,
    // Those that come after them.
    tail: FieldRun<'a>,
    // The one after these, if there is one.
    last: Option<FieldRef<'a>>,
}

impl<'a> Model for FieldIter<'a> {
    ghost use Rattle.std.specs.Prelude.{List, ◌++◌};
    ghost use Rattle.ipfix_message.specs.Fields.{Field};
    ghost use Rattle.ipfix_message.specs.FieldViews.{last_field};

    ghost Value = { List Field };

    ghost view = { λ it. it.own ++ (it.tail ++ last_field it.last) };
}

impl<'a> FieldIter<'a> {
    /// A record's own fields, then those of a tail, and one more after these, if there is one.
    pub(crate) fn new(own: FieldRun<'a>, tail: FieldRun<'a>, last: Option<FieldRef<'a>>) -> Self
        ensures { result ≡ own.entry ++ (tail.entry ++ last_field last.entry) }
    {
        FieldIter { own, tail, last }
    }

    /// How many fields are left.
    pub(crate) fn left(&self) -> usize
        ensures { result ≡ length self.now }
    {
        self.own.left() + self.tail.left() + usize::from(self.last.is_some())
    }
}

impl<'a> Iterator for FieldIter<'a> {
    type Item = FieldRef<'a>;

    ghost next_gives = { YieldsFirstBy field_of (λ rest. rest) };

    ghost remaining = { item_count (λ rest. rest) };

    fn next(&mut self) -> Option<FieldRef<'a>> {
        match self.own.next() {
            Some(field) => Some(field),
            None => match self.tail.next() {
                Some(field) => Some(field),
                None => self.last.take(),
            },
        }
    }
}
