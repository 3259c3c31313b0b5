//! Laws of exports that are read and merged.

ghost use Rattle.std.specs.Prelude.{◌≡◌, ◌≢◌, ◌==◌, ◌++◌, ℕ, List, length, All, is_none, IfSome};
ghost use Rattle.ipfix_elements.specs.declared.cell.Cell.{Cell};
ghost use Rattle.ipfix_message.specs.declared.record.DataRecord.{DataRecord};
ghost use Rattle.flow_table.specs.AddedUp.{added_up, rows_in, AddUpTooLarge};
ghost use Rattle.flow_table.specs.Bags.{IsSameBag};
ghost use Rattle.flow_table.specs.Plans.{PlanValue, IsPlan};
ghost use Rattle.flow_table.specs.SameTables.{RowValue};
ghost use Rattle.flow_table.specs.declared.table.Table.{Table};
ghost use Rattle.flow_export.specs.IpfixText.{ipfix_text};
ghost use Rattle.flow_export.specs.declared.intervals.Intervals.TheVariants.{OfPlan};
ghost use Rattle.laws_export.specs.ReadBack.{row_record};
ghost use Rattle.flow_merge.specs.Merging.{merging_intervals, merging_plan, AddsAllUp, AddsExport, HasRowsOf, IsDue, IsExport, StandsFor};
ghost use Rattle.flow_merge.specs.RowFaults.{IsRowFault};
ghost use Rattle.flow_merge.specs.RowRecords.{AreOrdered, IsRowOf, IsRowRecord, IsWithin};
ghost use Rattle.flow_merge.specs.declared.merge_fault.MergeFault.{MergeFault};
ghost use Rattle.flow_merge.specs.declared.merging.Merging.{Merging};
ghost use Rattle.flow_merge.specs.declared.row_fault.RowFault.{RowFault};
ghost use Rattle.flow_merge.specs.declared.row_fault.RowFault.TheVariants.{OutOfMemory};
ghost use Rattle.laws_merge.specs.Exports.{HasRowsOfAll, HoldsRows, IsExportable, IsExportFault, IsExportOf, with_counts};
ghost use Rattle.laws_merge.specs.AtMost.{AtMostOne};
ghost use Rattle.laws_merge.specs.ByExporter.{by_exporter, AddUpTo, HasExporter};
ghost use Rattle.laws_merge.specs.RowSums.{rows_at, AreSumsOf};
ghost use Rattle.flow_table.specs.Tables.{IsTable};

use ipfix_session::Source;

/// The record that an export has for a row of a plan's table is a row's record.
pub fn exports_have_row_records()
    ensures { (plan : PlanValue) (time : ℕ) (row : RowValue)
        → IsRowOf plan row → IsRowRecord plan (row_record plan time row) row }
{}

/// A record is that of one row at most.
pub fn one_row()
    ensures { (plan : PlanValue) (r : DataRecord) → IsPlan plan → AtMostOne (IsRowRecord plan r) }
{}

/// A record that some fault fits, but for want of memory, is no row's.
pub fn faults_are_no_rows()
    ensures { (plan : PlanValue) (r : DataRecord) (fault : RowFault) (row : RowValue)
        → fault ≢ OutOfMemory → IsRowFault plan r fault → IsRowRecord plan r row → ⊥ }
{}

/// What is exported of a table is an export of its rows, and of no others.
pub fn exports_have_their_rows()
    ensures own { (plan : PlanValue) (rs : List DataRecord) (table : Table) (text : List ℕ)
        → IsExportOf plan rs table text → IsExport plan text (rows_in table) }
    ensures only { (plan : PlanValue) (text : List ℕ)
        → IsPlan plan → AtMostOne (IsExport plan text) }
{}

/// What [`Merging::read`](flow_merge::Merging::read) answers of the export of a table: its rows were
/// added, or else the fault is none of its own, but that sums are too large.
pub fn exports_are_added_whole<S: Source>()
    ensures added { (limit : ℕ) (from to : S) (old new : Merging) (rows own : List RowValue)
        → HoldsRows (merging_plan old) (S.seen from) own → merging_intervals old ≡ OfPlan
        → AddsExport S.seen limit old from to rows new → StandsFor new (rows ++ own) }
    ensures fault { (limit : ℕ) (old new : S) (plan : PlanValue) (rows own : List RowValue)
        (fault : MergeFault) → HoldsRows plan (S.seen old) own
        → IsDue S.seen limit plan rows old new fault
        → IsExportFault (AddUpTooLarge (rows ++ own)) fault }
{}

/// What `collectd merge` promises of its table, that the rows of the sources' exports are added up in it,
/// makes it the theorem's: if the sources hold the exports of the tables of lists of records, one each,
/// the rows are those of the table of all these records (RFC 7015, section 5).
pub fn exports_add_up_to_all_records<S: Source>()
    ensures { (limit : ℕ) (plan : PlanValue) (sources : List S) (table : Table)
        → AddsAllUp S.seen limit plan sources table
        → HasRowsOfAll S.seen plan sources table }
{}

/// What is exported of merged rows is the export of the table of all their records. So merged exports
/// may be merged again, in any tree.
pub fn merged_is_merged_again()
    ensures { (plan : PlanValue) (rs : List DataRecord) (merged : Table) (time : ℕ)
        → HasRowsOf plan rs merged → IsExportable plan merged time
        → IsExportOf plan rs (with_counts plan rs merged) (ipfix_text plan time (rows_in merged)) }
{}

/// However records are split over exports, and in whatever order and tree these are merged, the rows
/// are the same.
pub fn any_split_merges()
    ensures { (plan : PlanValue) (rs others : List DataRecord) (a b : Table) → IsSameBag rs others
        → HasRowsOf plan rs a → HasRowsOf plan others b → rows_in a ≡ rows_in b }
{}

/// If the exporter of each record is known, the rows of a table by exporter that have the same interval and the
/// same key after it add up to what the records have there without the exporter: its column can be dropped.
pub fn exporters_add_up()
    ensures { (plan : PlanValue) (rs : List DataRecord) (table : Table)
        → IsTable (by_exporter plan) rs table → All HasExporter rs
        → AddUpTo plan rs (rows_in table) }
{}

/// Between borders, each before those after it, a time is within one interval at most: so each row is put in one, and
/// is added once.
pub fn one_interval()
    ensures { (borders : List ℕ) (start end : ℕ) → AreOrdered borders
        → AtMostOne (λ k. IsWithin borders k start end) }
{}

/// What rows add up to at an interval and a key is nothing if no row is there, and otherwise, for each
/// counter and for the flows, the sum over the rows that are there.
pub fn rows_add_up_by_sums()
    ensures none { (rows : List RowValue) (k : ℕ) (key : List Cell)
        → is_none (added_up rows k key) ≡ (length (rows_at rows k key) == 0) }
    ensures some { (rows : List RowValue) (k : ℕ) (key : List Cell) (count : ℕ)
        → All (λ row. length row.sums ≡ count) rows
        → IfSome (added_up rows k key) (AreSumsOf count (rows_at rows k key)) }
{}
