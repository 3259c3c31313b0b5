//! The rows of a flat table, which are made one after another.

ghost use Rattle.std.specs.Prelude.{◌≡◌, OnOk, IfOk, drop, length};
ghost use Rattle.flow_table.specs.AddedUp.{rows_in};
ghost use Rattle.flow_export.specs.Made.{IsFirst, IsMade};

use flow_table::{FlatTable, Row};
use std::alloc::{AllocError, Global};
use std::marker::Model;

/// The rows of a flat table that are left, in order. The first of them is made.
#[derive(Drop)]
pub struct MadeRows<'a> {
    table: &'a FlatTable,
    index: usize,
    row: Row,
}

impl<'a> Model for MadeRows<'a> {
    ghost use Rattle.std.specs.Prelude.{List, drop};
    ghost use Rattle.flow_table.specs.AddedUp.{rows_in};
    ghost use Rattle.flow_table.specs.SameTables.{RowValue};
    ghost use Rattle.flow_export.specs.Made.{IsMade};

    ghost Value = { List RowValue };

    ghost view = { λ rows. drop rows.index (rows_in rows.table.now) };

    ghost invariant = { λ rows. IsMade rows.row (drop rows.index (rows_in rows.table.now)) };
}

impl<'a> MadeRows<'a> {
    /// All rows of a table.
    pub fn of(alloc: Global, table: &'a FlatTable) -> Result<MadeRows<'a>, AllocError>
        ensures { IfOk result (λ rows. rows ≡ rows_in table.now) }
    {
        let mut row = Row::empty(alloc);
        make_row(table, 0, &mut row)?;
        Ok(MadeRows {
            table,
            index: 0,
            row,
        })
    }

    /// How many are left.
    pub fn len(&self) -> usize
        ensures { result ≡ length self.now }
    {
        self.table.len().saturating_sub(self.index)
    }

    /// The first that is left.
    pub fn first(&self) -> Option<&Row>
        ensures { IsFirst result self.now }
    {
        if self.index < self.table.len() {
            Some(&self.row)
        } else {
            None
        }
    }

    /// Passes over the first that is left. After an `Err` it is open which are left.
    pub fn pass(&mut self) -> Result<(), AllocError>
        ensures { OnOk result (self.new ≡ drop 1 self.old) }
    {
        if self.index >= self.table.len() {
            return Ok(());
        }
        self.index += 1;
        match make_row(self.table, self.index, &mut self.row) {
            Ok(()) => Ok(()),
            Err(error) => {
                self.index = self.table.len();
                Err(error)
            }
        }
    }
}

// Leaves the row at an index in `row`, if there is one.
fn make_row(table: &FlatTable, index: usize, row: &mut Row) -> Result<(), AllocError>
    ensures { OnOk result (IsMade row.new (drop index (rows_in table.now))) }
{
    if index < table.len() {
        table.row_at(index, row)?;
    }
    Ok(())
}
