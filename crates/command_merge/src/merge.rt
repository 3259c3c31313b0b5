//! Merging the exports in files.

ghost use Rattle.std.specs.Prelude.{IfErr, IfOk, OnOk};
ghost use Rattle.flow_merge.specs.RowRecords.{CanTakeRows};
ghost use Rattle.flow_table.specs.Fitting.{FitsPlan};
ghost use Rattle.report_writing.specs.Lines.{StaysFailed};
ghost use Rattle.report_writing.specs.Told.{AreToldTo};
ghost use Rattle.command_merge.specs.MergeLines.{file_told, files_opened_lines};
ghost use Rattle.command_merge.specs.Merges.{AddsFile, IsDueOpened, IsMerged, IsNotAdded, MergesFiles, StopsMerge, names_of};
ghost use Rattle.input_sources.specs.Had.{HoldBefore, IsOpened, PathsAreOpened};

use crate::job::MergeJob;
use crate::not_merged::{FileFault, NotMerged};
use crate::reports::{write_file_opened, write_merged, write_not_merged};
use flow_export::AnyTable;
use flow_merge::Merging;
use flow_table::FlatTable;
use input_sources::OpenSource;
use ipfix_session::{READ_LIMIT, Source};
use output_tables::{export, write_export_fault};
use report_writing::{Status, Verbosity, WriteLines};
use std::alloc::Global;
use std::io::Write;

/// Opens the files of exports one after another, and writes the table of all of them to `out`: rows of
/// the same interval and key are added up, after each was put in one of the job's intervals. Answers how it ended: `Well`; `NotOpened` if a file can't be
/// opened; `Failed` if a file is no whole export under the plan, a sum is too large, memory runs out, or
/// the table can't be written.
///
/// To `err` it writes how many files and rows there were, or else a line for the first file that was not
/// opened or not merged, and what is wrong with it. If the job is verbose it tells each file that is
/// opened or not merged, by its number and name, and the system's reason after one that can't be opened or read on.
/// A strict merge is none other, since nothing is merged in which anything was lost or passed over.
/// A fault of `err` is passed over. Nothing is written to `out` unless all files were merged.
pub fn run_merge_with<S: Source + Drop, O: OpenSource<S>, W: Write, E: WriteLines>(
    files: &mut O,
    alloc: Global,
    paths: &[&str],
    job: &MergeJob,
    out: &mut W,
    err: &mut E,
) -> Status
    requires { CanTakeRows job.now.intervals }
    // The source of each path, in their order, each opened once, gave an export; the rows of all of them,
    // added up, were written, and nothing else; or what kept them from it was told.
    ensures runs { MergesFiles S.seen S.failure O.opens O.refuses O.coming files.old files.new paths.now
        job.now W.contents out.old out.new (AreToldTo E.lines err.old err.new) result }
    ensures kept { StaysFailed E.lines err.old err.new }
{
    let table = match merge_files(files, alloc, paths, job, err) {
        Ok(table) => table,
        Err(not_merged) => {
            let _ = write_not_merged(job.verbosity, &not_merged, err);
            return not_merged.status();
        }
    };
    let rows = AnyTable::Flat(&table, job.intervals);
    if let Err(fault) = export(alloc, job.elements, job.plan, &rows, job.output, out) {
        let _ = write_export_fault(fault, err);
        return Status::Failed;
    }
    let _ = write_merged(paths.len(), table.len(), err);
    Status::Well
}

// The table of the exports in files; or why they were not merged. Each that is opened is told.
fn merge_files<'a, S: Source + Drop, O: OpenSource<S>, E: WriteLines>(
    files: &mut O,
    alloc: Global,
    paths: &[&'a str],
    job: &MergeJob,
    err: &mut E,
) -> Result<FlatTable, NotMerged<'a>>
    requires { CanTakeRows job.now.intervals }
    ensures merged { IfOk result (IsMerged S.seen
        (PathsAreOpened O.opens O.coming files.old files.new paths.now)
        job.now.intervals job.now.plan.now) }
    ensures fits { IfOk result (FitsPlan job.now.plan.now) }
    ensures told { OnOk result (AreToldTo E.lines err.old err.new
        (files_opened_lines job.now.verbosity (names_of paths.now))) }
    ensures stops { IfErr result (StopsMerge (IsDueOpened S.seen S.failure O.opens O.refuses O.coming
        files.old files.new job.now.intervals job.now.plan.now) (names_of paths.now) job.now.verbosity
        (AreToldTo E.lines err.old err.new)) }
    ensures kept { StaysFailed E.lines err.old err.new }
{
    let mut merging = match Merging::new(alloc, job.plan, job.intervals) {
        Ok(merging) => merging,
        Err(fault) => return Err(NotMerged::Whole(fault)),
    };
    for (index, path) in paths.iter().enumerate() {
        merging = add_file(files, merging, index + 1, *path, job.verbosity, err)?;
    }
    match merging.finish() {
        Ok(table) => Ok(table),
        Err(fault) => Err(NotMerged::Whole(fault)),
    }
}

// Adds the file of this number, counted from 1.
fn add_file<'a, 'b, S: Source + Drop, O: OpenSource<S>, E: WriteLines>(
    files: &mut O,
    merging: Merging<'b>,
    number: usize,
    path: &'a str,
    verbosity: Verbosity,
    err: &mut E,
) -> Result<Merging<'b>, NotMerged<'a>>
    ensures added { IfOk result (AddsFile S.seen
        (IsOpened (O.opens files.old path.now) (O.coming files.old) (O.coming files.new)) merging.entry) }
    ensures same { HoldBefore (O.opens files.old) (O.opens files.new) }
    ensures same_reason { HoldBefore (O.refuses files.old) (O.refuses files.new) }
    ensures told { OnOk result (AreToldTo E.lines err.old err.new
        (file_told verbosity number path.now)) }
    ensures stops { IfErr result (IsNotAdded S.seen S.failure O.opens O.refuses O.coming files.old files.new
        merging.entry verbosity number path.now (AreToldTo E.lines err.old err.new)) }
    ensures kept { StaysFailed E.lines err.old err.new }
{
    let mut source = match files.open_source(path) {
        Ok(opened) => opened.source,
        Err(reason) => return Err(NotMerged::NotOpened { path, reason }),
    };
    let _ = write_file_opened(verbosity, number, path, err);
    match merging.read(&mut source, READ_LIMIT) {
        Ok(merging) => Ok(merging),
        Err(fault) => Err(NotMerged::File {
            number,
            path,
            fault: FileFault::of(fault, source.failure()),
        }),
    }
}
