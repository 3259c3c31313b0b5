//! The rows of one table, in their order.

ghost use Rattle.std.specs.Prelude.{◌≡◌, ◌<◌, [], None, true, false, drop, length, IfOk, IfSome, OnOk};
ghost use Rattle.flow_table.specs.AddedUp.{rows_in};
ghost use Rattle.flow_table.specs.SameTables.{value_of};
ghost use Rattle.flow_table.specs.Tables.{place_of};
ghost use Rattle.largest_sessions.specs.SessionNumbers.{number_of};
ghost use Rattle.largest_sessions.specs.Walks.{IsBefore, StartsWith, after_place, first_number};

use crate::places::compare_places;
use flow_table::{FlatTable, Row};
use std::alloc::{AllocError, Global};
use std::marker::Model;

/// The rows of a table that are still to come. A contract sees them as their list.
#[derive(Drop)]
pub(crate) struct Cursor {
    table: FlatTable,
    next: usize,
    /// The next row, if there is one.
    row: Row,
}

impl Model for Cursor {
    ghost use Rattle.std.specs.Prelude.{◌≡◌, ◌<◌, List, drop, length, slice_index_or};
    ghost use Rattle.flow_table.specs.AddedUp.{rows_in};
    ghost use Rattle.flow_table.specs.SameTables.{RowValue, value_of};

    ghost Value = { List RowValue };

    ghost view = { λ c. drop c.next (rows_in c.table) };

    ghost invariant = { λ c. (d : RowValue) → c.next < length c.table.rows.items
        → value_of c.row ≡ slice_index_or (rows_in c.table) c.next d };
}

// The number of an index: a sum, or behind them that of the flows.
fn number_in(row: &Row, number: usize) -> u64
    ensures { result ≡ number_of (value_of row.now) number }
{
    if number < row.sums.len() {
        row.sums[number]
    } else if number == row.sums.len() {
        row.flows
    } else {
        0
    }
}

impl Cursor {
    /// All rows of a table.
    pub fn new(alloc: Global, table: FlatTable) -> Result<Cursor, AllocError>
        ensures { IfOk result (λ cursor. cursor ≡ rows_in table) }
    {
        let mut row = Row::empty(alloc);
        if table.len() > 0 {
            table.row_at(0, &mut row)?;
        }
        Ok(Cursor {
            table,
            next: 0,
            row,
        })
    }

    /// The next row.
    pub fn row(&self) -> Option<&Row>
        ensures some { IfSome result (λ row. StartsWith (value_of row.now) self.now) }
        ensures none { result ≡ None → self.now ≡ [] }
    {
        if self.next < self.table.len() {
            Some(&self.row)
        } else {
            None
        }
    }

    /// Leaves the next row in `row`.
    pub fn write_row(&self, row: &mut Row) -> Result<(), AllocError>
        requires { 0 < length self.now }
        ensures { OnOk result (StartsWith (value_of row.new) self.now) }
    {
        self.table.row_at(self.next, row)?;
        Ok(())
    }

    /// What the next row has at the place of a row: the number of an index, or 0.
    #[tactic(auto, using(crate::proofs::FirstRows::number_there, crate::proofs::FirstRows::number_elsewhere, crate::proofs::FirstRows::number_none))]
    pub fn number_at(&self, place: &Row, number: usize) -> u64
        ensures { result ≡ first_number self.now (place_of place.now) number }
    {
        let Some(row) = self.row() else {
            return 0;
        };
        if compare_places(place, row).is_eq() {
            number_in(row, number)
        } else {
            0
        }
    }

    /// Whether a row is before the next one.
    #[tactic(auto, using(crate::proofs::FirstRows::before_first, crate::proofs::FirstRows::not_before_first, crate::proofs::FirstRows::before_none))]
    pub fn is_after(&self, row: &Row) -> bool
        ensures yes { result ≡ true → IsBefore (place_of row.now) self.now }
        ensures no { result ≡ false → IsBefore (place_of row.now) self.now → ⊥ }
    {
        let Some(next) = self.row() else {
            return false;
        };
        compare_places(row, next).is_lt()
    }

    /// Goes on to the row after the next one.
    ///
    /// After an `Err` there is none.
    #[tactic(auto, using(crate::proofs::FirstRows::drop_one))]
    fn skip(&mut self) -> Result<(), AllocError>
        requires { 0 < length self.old }
        ensures { OnOk result (self.new ≡ drop 1 self.old) }
    {
        let next = self.next + 1;
        self.next = self.table.len();
        if next < self.table.len() {
            self.table.row_at(next, &mut self.row)?;
            self.next = next;
        }
        Ok(())
    }

    /// Goes on after the place of a row.
    #[tactic(auto, using(crate::proofs::FirstRows::after_there, crate::proofs::FirstRows::after_elsewhere, crate::proofs::FirstRows::after_no_row))]
    pub fn pass(&mut self, place: &Row) -> Result<(), AllocError>
        ensures { OnOk result (self.new ≡ after_place (place_of place.now) self.old) }
    {
        let Some(row) = self.row() else {
            return Ok(());
        };
        if compare_places(place, row).is_eq() {
            self.skip()?;
        }
        Ok(())
    }

    /// Leaves no row.
    pub fn close(&mut self)
        ensures { self.new ≡ [] }
    {
        self.next = self.table.len();
    }
}
