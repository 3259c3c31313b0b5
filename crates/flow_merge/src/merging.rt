//! Exports of tables, read one after another, and their rows added up.

ghost use Rattle.std.specs.Prelude.{◌≡◌, ◌+◌, ◌++◌, ◌∷◌, [], flat_map, length, List, IfOk, IfErr};
ghost use Rattle.std.specs.List.{AllZip};
ghost use Rattle.std.specs.Result.{result_err};
ghost use Rattle.ipfix_message.specs.declared.record.DataRecord.{DataRecord};
ghost use Rattle.ipfix_session.specs.Ledger.{capped};
ghost use Rattle.flow_table.specs.AddedUp.{rows_in, AddUpTooLarge, AreAddedUp};
ghost use Rattle.flow_table.specs.Fitting.{FitsPlan};
ghost use Rattle.flow_table.specs.SameTables.{RowValue};
ghost use Rattle.flow_table.specs.Tables.{IsTable};
ghost use Rattle.flow_table.specs.declared.table.Table.{Table as TableValue};
ghost use Rattle.flow_merge.specs.Merging.{all_of, merging_intervals, merging_plan, ForRowsOf, HasRowsOf, ReadsExport, RefusesExport, StandsFor, no_records, none_missing};
ghost use Rattle.flow_merge.specs.RowRecords.{CanTakeRows};
ghost use Rattle.flow_merge.specs.RowSink.{HoldsAfter, StandsAfter};
ghost use Rattle.flow_merge.specs.declared.merge_fault.MergeFault.TheVariants.{OutOfMemory};

use crate::judging::judge;
use crate::merge_fault::MergeFault;
use crate::row_intervals::RowIntervals;
use crate::row_reading::read_row;
use crate::row_sink::RowSink;
use flow_export::Intervals;
use flow_table::{FlatTable, Missing, Plan, RowTotals, Tally};
use ipfix_message::DataRecord;
use ipfix_session::{Source, drive};
use std::alloc::Global;

/// The rows of exports of tables under a plan, added up. It stands for the list of the rows that were
/// read.
#[derive(Drop)]
pub struct Merging<'a> {
    alloc: Global,
    totals: RowTotals,
    intervals: RowIntervals<'a>,
}

impl<'a> Merging<'a> {
    /// No rows. It keeps a copy of the plan. Rows are put in these intervals: with [`Intervals::OfPlan`] each row has an
    /// interval of the plan, and keeps it; between borders each may have any that is within one of the intervals there, and
    /// is put in that one.
    ///
    /// The fault is `OutOfMemory`: an allocation was refused.
    pub fn new(
        alloc: Global,
        plan: &Plan,
        intervals: Intervals<'a>,
    ) -> Result<Merging<'a>, MergeFault>
        requires { CanTakeRows intervals }
        ensures plan { IfOk result (λ m. merging_plan m ≡ plan.now) }
        ensures intervals { IfOk result (λ m. merging_intervals m ≡ intervals.entry) }
        ensures empty { IfOk result (λ m. StandsFor m []) }
        ensures err { IfErr result (λ e. e ≡ OutOfMemory) }
    {
        Ok(Merging {
            alloc,
            totals: RowTotals::new(alloc, plan)?,
            intervals: RowIntervals::of(intervals),
        })
    }

    /// Adds the row of a record, which has this number among those of its export, counted from 1.
    pub(crate) fn add(&mut self, data_record: &DataRecord, number: u64) -> Result<(), MergeFault>
        ensures plan { merging_plan self.new ≡ merging_plan self.old }
        ensures intervals { merging_intervals self.new ≡ merging_intervals self.old }
        ensures holds { (rows : List RowValue) (rs : List DataRecord)
            → StandsAfter self.old rows rs → number ≡ capped (length rs + 1)
            → HoldsAfter (result_err result) number self.new rows (rs ++ data_record.now ∷ []) }
    {
        let intervals = self.intervals.intervals;
        let row = match read_row(self.alloc, self.totals.plan(), intervals, data_record) {
            Ok(row) => row,
            Err(fault) => return Err(MergeFault::of_row(fault, number)),
        };
        self.totals.add(&row)?;
        Ok(())
    }

    /// Reads an export of a table under the plan to its end, in at most `limit` reads, and adds its rows.
    ///
    /// The fault is the first of these that fits. `Session`: the session of the octets ended early. Then
    /// `NotAnExport`: they have no message, or a set or a withdrawal of theirs was passed over. Then
    /// `Lost`: their sequence numbers don't count on (RFC 7011, section 3.1). Then, for the first record
    /// that can't be added, `Row` with what is wrong with it, `Border` with its number if its interval is within none of
    /// those between borders, or `SumTooLarge` if a sum or a number of flows would be 2^64 or more with its row. `OutOfMemory` may come
    /// in place of the last three, or of success.
    pub fn read<S: Source>(self, source: &mut S, limit: u64) -> Result<Merging<'a>, MergeFault>
        ensures plan { IfOk result (λ m. merging_plan m ≡ merging_plan self.entry) }
        ensures intervals { IfOk result (λ m. merging_intervals m ≡ merging_intervals self.entry) }
        ensures ok { ReadsExport S.seen limit self.entry source.old source.new result }
        ensures fault { RefusesExport S.seen limit self.entry source.old source.new result }
    {
        let alloc = self.alloc;
        let mut sink = RowSink {
            merging: self,
            fault: None,
            taken: 0,
        };
        let report = drive(alloc, source, &mut sink, limit);
        judge(&report)?;
        match sink.fault {
            Some(fault) => Err(fault),
            None => Ok(sink.merging),
        }
    }

    /// The table of the rows, added up. Its tally is 0, and nothing is missing: exports don't tell the
    /// records by class, nor what they lack.
    ///
    /// The fault is `OutOfMemory`: an allocation was refused.
    pub fn finish(self) -> Result<FlatTable, MergeFault>
        ensures rows { ForRowsOf self.entry (λ rows.
            IfOk result (λ made. AreAddedUp rows (rows_in made))) }
        // The table fits the plan, as an export asks.
        ensures fits { ForRowsOf self.entry (λ rows.
            IfOk result (FitsPlan (merging_plan self.entry))) }
        ensures small { ForRowsOf self.entry (λ rows. AddUpTooLarge rows → ⊥) }
        // The rows of tables are merged into those of the table of all their records.
        ensures tables { (lists : List (List DataRecord)) (ts : List TableValue)
            → StandsFor self.entry (flat_map rows_in ts)
            → AllZip (IsTable (merging_plan self.entry)) lists ts
            → IfOk result (HasRowsOf (merging_plan self.entry) (all_of lists)) }
        ensures tally { IfOk result (λ table. table.tally ≡ no_records) }
        ensures missing { IfOk result (λ table. table.missing ≡ none_missing) }
        ensures err { IfErr result (λ e. e ≡ OutOfMemory) }
    {
        let Merging { totals, .. } = self;
        Ok(totals.finish(Tally::EMPTY, Missing::NONE)?)
    }
}
