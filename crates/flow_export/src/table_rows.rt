//! The rows of a table, one after another, however they are kept.

ghost use Rattle.std.specs.Prelude.{◌≡◌, ◌∷◌, [], MatchOption, IfOk, OnOk, drop, length};
ghost use Rattle.flow_export.specs.AnyTables.{rows_of};
ghost use Rattle.flow_export.specs.Made.{IsFirst};

use crate::any_table::AnyTable;
use crate::made_rows::MadeRows;
use flow_table::Row;
use std::alloc::{AllocError, Global};
use std::marker::Model;

/// The rows of a table that are left, in order.
#[derive(Drop)]
pub struct TableRows<'a> {
    left: RowsLeft<'a>,
}

/// Rows that are left.
#[derive(Drop)]
enum RowsLeft<'a> {
    /// Those of a [`Table`].
    Kept(&'a [Row]),
    /// Those of a [`FlatTable`].
    Made(MadeRows<'a>),
}

impl<'a> Model for TableRows<'a> {
    ghost use Rattle.std.specs.Prelude.{List};
    ghost use Rattle.flow_table.specs.SameTables.{RowValue};
    ghost use Rattle.flow_export.specs.RowsLeft.{rows_left};

    ghost Value = { List RowValue };

    ghost view = { λ rows. rows_left rows.left };
}

impl<'a> TableRows<'a> {
    /// All rows of a table. Those that are kept one by one take no memory.
    pub fn of(alloc: Global, table: &AnyTable<'a>) -> Result<TableRows<'a>, AllocError>
        ensures { IfOk result (λ rows. rows ≡ rows_of table.now) }
    {
        match *table {
            AnyTable::Rows(table) => Ok(TableRows {
                left: RowsLeft::Kept(&table.rows),
            }),
            AnyTable::Flat(table, _) => Ok(TableRows {
                left: RowsLeft::Made(MadeRows::of(alloc, table)?),
            }),
        }
    }

    /// How many are left.
    pub fn len(&self) -> usize
        ensures { result ≡ length self.now }
    {
        match &self.left {
            RowsLeft::Kept(rows) => rows.len(),
            RowsLeft::Made(rows) => rows.len(),
        }
    }

    /// The first that is left.
    pub fn first(&self) -> Option<&Row>
        ensures { IsFirst result self.now }
    {
        match &self.left {
            RowsLeft::Kept(rows) => first_of(rows),
            RowsLeft::Made(rows) => rows.first(),
        }
    }

    /// Passes over the first that is left. After an `Err` it is open which are left.
    pub fn pass(&mut self) -> Result<(), AllocError>
        ensures { OnOk result (self.new ≡ drop 1 self.old) }
    {
        match &mut self.left {
            RowsLeft::Kept(rows) => {
                *rows = behind_first(*rows);
                Ok(())
            }
            RowsLeft::Made(rows) => rows.pass(),
        }
    }
}

// The first row.
fn first_of(rows: &[Row]) -> Option<&Row>
    ensures { MatchOption result (rows.now ≡ []) (λ row. rows.now ≡ row.now ∷ drop 1 rows.now) }
{
    match rows {
        [first, ..] => Some(first),
        [] => None,
    }
}

// The rows after the first.
fn behind_first<'a>(rows: &'a [Row]) -> &'a [Row]
    ensures { result.now ≡ drop 1 rows.now }
{
    match rows {
        [_, rest @ ..] => rest,
        [] => rows,
    }
}
