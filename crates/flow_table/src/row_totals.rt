//! Rows that are added up.

ghost use Rattle.std.specs.Prelude.{◌≡◌, [], ◌<◌, IfOk, IfErr, OnOk};
ghost use Rattle.flow_table.specs.AddedUp.{AddUpTooLarge, AreAddedUp, rows_in};
ghost use Rattle.flow_table.specs.Fitting.{FitsRow};
ghost use Rattle.flow_table.specs.RowTotals.{AreOf, ForRows, ForRowsWith, totals_plan};
ghost use Rattle.flow_table.specs.TableFaults.{OnSumTooLarge};
ghost use Rattle.flow_table.specs.declared.table_fault.TableFault.TheVariants.{OutOfMemory};

use crate::flat_table::FlatTable;
use crate::missing::Missing;
use crate::plan::Plan;
use crate::rows::Rows;
use crate::table::Row;
use crate::table_fault::TableFault;
use crate::tally::Tally;
use crate::words::write_words;
use std::alloc::Global;

/// The totals of some rows under a plan by interval and key, to which more rows are added. They stand
/// for the list of these rows.
#[derive(Drop)]
pub struct RowTotals {
    alloc: Global,
    plan: Plan,
    rows: Rows,
    words: Vec<u64>,
}

impl RowTotals {
    /// The totals of no rows. They keep a copy of the plan.
    ///
    /// The fault is `OutOfMemory`: an allocation was refused.
    pub fn new(alloc: Global, plan: &Plan) -> Result<RowTotals, TableFault>
        ensures plan { IfOk result (λ totals. totals_plan totals ≡ plan.now) }
        ensures empty { IfOk result (λ totals. AreOf totals []) }
        ensures err { IfErr result (λ e. e ≡ OutOfMemory) }
    {
        Ok(RowTotals {
            alloc,
            plan: plan.copy(alloc)?,
            rows: Rows::new(alloc, plan),
            words: Vec::new(alloc),
        })
    }

    /// The plan of the rows.
    pub fn plan(&self) -> &Plan
        ensures { result.now ≡ totals_plan self.now }
    {
        &self.plan
    }

    /// Adds a row that fits the plan, and that some flow contributes to.
    ///
    /// The fault is `SumTooLarge` if a sum or a number of flows would be 2^64 or more with the row, and
    /// `OutOfMemory` if an allocation was refused. A fault leaves the totals as they were.
    pub fn add(&mut self, row: &Row) -> Result<(), TableFault>
        requires fits { FitsRow (totals_plan self.old) row.now }
        requires some { 0 < row.now.flows }
        ensures plan { totals_plan self.new ≡ totals_plan self.old }
        ensures adds { ForRowsWith self.old row.now (λ rows. OnOk result (AreOf self.new rows)) }
        ensures large { ForRowsWith self.old row.now
            (λ rows. OnSumTooLarge result (AddUpTooLarge rows)) }
    {
        write_words(self.plan.kinds(), &row.key, &mut self.words)?;
        self.rows
            .add(row.interval, &self.words, row.flows, &row.sums)
    }

    /// The table of the rows, which are made as they are asked for, with this tally and what records lack.
    ///
    /// The fault is `OutOfMemory`: an allocation was refused.
    pub fn finish(self, tally: Tally, missing: Missing) -> Result<FlatTable, TableFault>
        ensures sums { ForRows self
            (λ rows. IfOk result (λ merged. AreAddedUp rows (rows_in merged))) }
        ensures tally { IfOk result (λ merged. merged.tally ≡ tally) }
        ensures missing { IfOk result (λ merged. merged.missing ≡ missing) }
        ensures small { ForRows self (λ rows. AddUpTooLarge rows → ⊥) }
        ensures err { IfErr result (λ e. e ≡ OutOfMemory) }
    {
        let RowTotals {
            alloc,
            plan,
            rows,
            ..
        } = self;
        Ok(FlatTable::of(alloc, plan, rows, tally, missing)?)
    }
}
