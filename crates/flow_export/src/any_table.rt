//! A table, however its rows are kept.

ghost use Rattle.std.specs.Prelude.{◌≡◌, length};
ghost use Rattle.flow_export.specs.AnyTables.{intervals_of, rows_of};

use crate::intervals::Intervals;
use flow_table::{FlatTable, Table};

/// A table, however its rows are kept.
#[derive(Clone, Copy)]
pub enum AnyTable<'a> {
    /// Rows that are kept one by one.
    Rows(&'a Table),
    /// Rows that are kept as they were added up, and made one by one, and the intervals that they have.
    Flat(&'a FlatTable, Intervals<'a>),
}

impl<'a> AnyTable<'a> {
    /// When the intervals of its rows begin and end.
    pub fn intervals(&self) -> Intervals<'a>
        ensures { result ≡ intervals_of self.now }
    {
        match self {
            AnyTable::Rows(_) => Intervals::OfPlan,
            AnyTable::Flat(_, intervals) => *intervals,
        }
    }

    /// How many rows it has.
    pub fn len(&self) -> usize
        ensures { result ≡ length (rows_of self.now) }
    {
        match self {
            AnyTable::Rows(table) => table.rows.len(),
            AnyTable::Flat(table, _) => table.len(),
        }
    }
}
