//! Merging tables as their receipts say them.

ghost use Rattle.std.specs.Prelude.{IfErr, IfOk, OnOk};
ghost use Rattle.flow_merge.specs.RowRecords.{CanTakeRows};
ghost use Rattle.flow_table.specs.Fitting.{FitsPlan};
ghost use Rattle.report_writing.specs.Lines.{StaysFailed};
ghost use Rattle.report_writing.specs.OpeningLines.{if_verbose};
ghost use Rattle.report_writing.specs.Told.{AreToldTo};
ghost use Rattle.command_merge.specs.MergeLines.{file_opened_line, files_opened_lines};
ghost use Rattle.command_merge_receipts.specs.Stops.{AddsNext, IsNotAdded, StopsAmong, names_in};
ghost use Rattle.command_merge_receipts.specs.Tables.{AreMergedInto};

use crate::adding::{Against, add_text};
use crate::not_merged::NotMergedParts;
use command_merge::{FileFault, MergeJob, NotMerged, write_file_opened};
use flow_merge::Merging;
use flow_table::FlatTable;
use input_files::ReadText;
use receipt_merging::PartFault;
use report_writing::{Verbosity, WriteLines};
use std::alloc::Global;
use table_parts::PartTable;

/// The table of all rows of these tables; or why one of them wasn't added. Each that is opened is told.
pub fn merge_tables<'a, T: ReadText, E: WriteLines>(
    texts: &T,
    alloc: Global,
    tables: &[PartTable<'a>],
    job: &MergeJob,
    err: &mut E,
) -> Result<FlatTable, NotMergedParts<'a>>
    requires { CanTakeRows job.now.intervals }
    ensures merged { IfOk result (AreMergedInto (T.has texts.now) job.now tables.now) }
    ensures fits { IfOk result (FitsPlan job.now.plan.now) }
    ensures told { OnOk result (AreToldTo E.lines err.old err.new
        (files_opened_lines job.now.verbosity (names_in tables.now))) }
    ensures stops { IfErr result (StopsAmong
        (T.has texts.now) (T.refuses texts.now) job.now.intervals job.now.plan.now
        tables.now job.now.verbosity (AreToldTo E.lines err.old err.new)) }
    ensures kept { StaysFailed E.lines err.old err.new }
{
    let mut merging = match Merging::new(alloc, job.plan, job.intervals) {
        Ok(merging) => merging,
        Err(fault) => return Err(NotMergedParts::NotMerged(NotMerged::Whole(fault))),
    };
    for (index, table) in tables.iter().enumerate() {
        merging = add_table(texts, alloc, merging, index + 1, table, job.verbosity, err)?;
    }
    match merging.finish() {
        Ok(table) => Ok(table),
        Err(fault) => Err(NotMergedParts::NotMerged(NotMerged::Whole(fault))),
    }
}

// Adds the table of the file of this number, counted from 1.
fn add_table<'a, 'b, T: ReadText, E: WriteLines>(
    texts: &T,
    alloc: Global,
    merging: Merging<'b>,
    number: usize,
    table: &PartTable<'a>,
    verbosity: Verbosity,
    err: &mut E,
) -> Result<Merging<'b>, NotMergedParts<'a>>
    ensures added { IfOk result (AddsNext (T.has texts.now) table.now merging.entry) }
    ensures told { OnOk result (AreToldTo E.lines err.old err.new
        (if_verbose verbosity (file_opened_line number table.now.files.table.now))) }
    ensures stops { IfErr result (IsNotAdded (T.has texts.now)
        (T.refuses texts.now) merging.entry number table.now verbosity
        (AreToldTo E.lines err.old err.new)) }
    ensures kept { StaysFailed E.lines err.old err.new }
{
    let path = table.files.table;
    let octets = match texts.read_text(alloc, path) {
        Ok(octets) => octets,
        Err(reason) => {
            return Err(NotMergedParts::NotMerged(NotMerged::NotOpened { path, reason }));
        }
    };
    let _ = write_file_opened(verbosity, number, path, err);
    match add_text(merging, table, &octets) {
        Ok(merging) => Ok(merging),
        Err(Against::NotItsTable) => {
            Err(NotMergedParts::Part(number, table.files, PartFault::NotItsTable))
        }
        Err(Against::Merge(fault)) => Err(NotMergedParts::NotMerged(NotMerged::File {
            number,
            path,
            fault: FileFault::of(fault, None),
        })),
    }
}
