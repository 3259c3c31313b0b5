//! Why a data record is left out of a table, and what it lacks.

ghost use Rattle.std.specs.Prelude.{◌≡◌};
ghost use Rattle.flow_table.specs.LeftOut.{class_in};

use crate::class::Class;

/// Why a data record is left out of a table.
#[derive(Clone, Copy)]
pub(crate) enum LeftOut {
    /// Its template has scope fields.
    Options,
    /// It has no start.
    WithoutStart,
    /// It has a start and no end.
    WithoutEnd,
    /// It ends before it starts.
    Backward,
    /// The key at this place in the plan is the first that it lacks.
    WithoutKey(usize),
    /// It would be given to too many intervals.
    TooLong,
}

impl LeftOut {
    /// The class of the record.
    pub(crate) fn class(&self) -> Class
        ensures { result ≡ class_in self.now }
    {
        match self {
            LeftOut::Options => Class::Options,
            LeftOut::WithoutStart | LeftOut::WithoutEnd => Class::Untimed,
            LeftOut::Backward => Class::Backward,
            LeftOut::WithoutKey(_) => Class::Unkeyed,
            LeftOut::TooLong => Class::TooLong,
        }
    }
}
