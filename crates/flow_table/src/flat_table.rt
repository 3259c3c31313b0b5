//! Finished tables with no block of memory for each row.

ghost use Rattle.std.specs.Prelude.{◌≡◌, ◌<◌, length, map, IfOk, OnOk};
ghost use Rattle.flow_table.specs.AddedUp.{rows_in};
ghost use Rattle.flow_table.specs.Finishing.{AreLinesFrom, line_of};
ghost use Rattle.flow_table.specs.Fitting.{FitsPlan, FitsRow};
ghost use Rattle.flow_table.specs.Plans.{PlanValue};
ghost use Rattle.flow_table.specs.SameTables.{AtIndex, IsSameTable, value_of};

use crate::missing::Missing;
use crate::plan::Plan;
use crate::rows::Rows;
use crate::run::Run;
use crate::table::{Row, Table};
use crate::tally::Tally;
use ipfix_elements::Kind;
use std::alloc::{AllocError, Global};
use std::marker::Model;

/// A [`Table`] whose rows are made one by one, as they are asked for. A contract sees it as this table.
#[derive(Drop)]
pub struct FlatTable {
    alloc: Global,
    kinds: Vec<Kind>,
    counters: usize,
    run: Run,
    tally: Tally,
    missing: Missing,
}

impl Model for FlatTable {
    ghost use Rattle.std.specs.Prelude.{◌^◌, ◌<◌};
    ghost use Rattle.flow_table.specs.declared.table.Table.{Table};
    ghost use Rattle.flow_table.specs.FlatTables.{run_values, table_of};

    ghost Value = { Table };

    ghost view = { λ t. table_of t.alloc (run_values t.kinds.items t.counters t.run) t.tally t.missing };

    ghost invariant = { λ t. t.counters < 2 ^ 63 };
}

impl FlatTable {
    /// The table of rows under a plan, of a tally, and of what records lack.
    pub(crate) fn of(
        alloc: Global,
        plan: Plan,
        rows: Rows,
        tally: Tally,
        missing: Missing,
    ) -> Result<FlatTable, AllocError>
        ensures rows { IfOk result
            (λ table. AreLinesFrom plan rows (map line_of table.rows.items)) }
        ensures tally { IfOk result (λ table. table.tally ≡ tally) }
        ensures missing { IfOk result (λ table. table.missing ≡ missing) }
    {
        let counters = plan.counters().len();
        Ok(FlatTable {
            alloc,
            kinds: plan.into_kinds(),
            counters,
            run: rows.finish()?,
            tally,
            missing,
        })
    }

    /// The number of rows.
    pub fn len(&self) -> usize
        ensures { result ≡ length self.now.rows.items }
    {
        self.run.len()
    }

    /// Leaves the row at an index in `row`. The vectors of `row` are filled again: where they have room,
    /// nothing is allocated.
    ///
    /// After an `Err` it is open what `row` says.
    pub fn row_at(&self, index: usize, row: &mut Row) -> Result<(), AllocError>
        requires { index < length self.now.rows.items }
        ensures row { OnOk result
            (AtIndex (rows_in self.now) index (λ value. value_of row.new ≡ value)) }
        // The rows of a table that fits a plan do.
        ensures fits { (plan : PlanValue) → FitsPlan plan self.now
            → OnOk result (FitsRow plan row.new) }
    {
        self.run.write(index, &self.kinds, self.counters, row)
    }

    /// All records by class.
    pub fn tally(&self) -> Tally
        ensures { result ≡ self.now.tally }
    {
        self.tally
    }

    /// What the untimed and unkeyed records lack, and the used ones' counters that are missing.
    pub fn missing(&self) -> Missing
        ensures { result ≡ self.now.missing }
    {
        self.missing
    }

    /// The table with all its rows.
    pub fn into_table(self) -> Result<Table, AllocError>
        ensures { IfOk result (IsSameTable self) }
    {
        Ok(Table {
            rows: self.all_rows()?,
            tally: self.tally,
            missing: self.missing,
        })
    }

    /// All rows, each with two blocks of memory.
    fn all_rows(&self) -> Result<Vec<Row>, AllocError>
        ensures { IfOk result (λ rows. map value_of rows.items ≡ rows_in self.now) }
    {
        let mut rows = Vec::with_capacity(self.alloc, self.len())?;
        for index in 0..self.len() {
            let mut row = Row {
                interval: 0,
                key: Vec::with_capacity(self.alloc, self.kinds.len())?,
                sums: Vec::with_capacity(self.alloc, self.counters)?,
                flows: 0,
            };
            self.row_at(index, &mut row)?;
            rows.push(row)?;
        }
        Ok(rows)
    }
}
