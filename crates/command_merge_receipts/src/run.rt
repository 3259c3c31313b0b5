//! Merging tables by their receipts, and writing the table of all of them.

ghost use Rattle.std.specs.Prelude.{◌≡◌};
ghost use Rattle.flow_merge.specs.RowRecords.{CanTakeRows};
ghost use Rattle.report_writing.specs.Lines.{StaysFailed};
ghost use Rattle.report_writing.specs.Told.{AreToldTo};
ghost use Rattle.command_merge_receipts.specs.Lines.{not_merged_parts_lines, parts_status_of};
ghost use Rattle.command_merge_receipts.specs.Runs.{MergesParts, ended_by};

use crate::job::{MergedEnd, MergedTo, PartsJob};
use crate::merging::merge_tables;
use crate::not_merged::NotMergedParts;
use crate::reports::{write_counted_twice, write_not_merged_parts};
use crate::taking::{TakenParts, take_parts};
use crate::writing::{WrittenMerge, write_merge};
use command_collect::{ReceiptPlace, write_run_fault};
use command_merge::write_merged;
use input_files::ReadText;
use report_writing::{Status, Verbosity, WriteLines};
use std::alloc::Global;
use std::io::Write;

/// Reads all receipts, and then the tables one after another, writes the table of all of them to
/// `to.out`, and then puts its receipt, if there is a place for one. Answers how it ended: `Well`;
/// `SessionFault` if a strict run merged what isn't complete; `NotOpened` if a table can't
/// be opened; `Failed` if the receipts don't let the parts be merged, or a table is another than
/// its receipt says, or as [`run_merge_with`](command_merge::run_merge_with) ends so, or if there
/// is no memory for the receipt or it can't be put.
///
/// At the first two each input of each part with data records is in the table once: no two have the
/// same digest, unless that is allowed, which is told of the first two; and the receipt lists the
/// inputs of all parts.
pub fn run_merge_parts<T: ReadText, W: Write + Drop, P: ReceiptPlace + Drop, E: WriteLines>(
    texts: &T,
    alloc: Global,
    job: &PartsJob,
    to: MergedTo<W, P>,
    err: &mut E,
) -> MergedEnd<W, P>
    requires { CanTakeRows job.now.merge.intervals }
    ensures runs { MergesParts (T.has texts.now) (T.refuses texts.now)
        job.now W.contents P.holds to result.to (AreToldTo E.lines err.old err.new) result.status }
    ensures kept { StaysFailed E.lines err.old err.new }
{
    let verbosity = job.merge.verbosity;
    let taken = match take_parts(texts, alloc, job) {
        Ok(taken) => taken,
        Err(not_merged) => {
            let status = tell_not_merged(verbosity, &not_merged, err);
            return MergedEnd { status, to };
        }
    };
    let table = match merge_tables(texts, alloc, &taken.tables, &job.merge, err) {
        Ok(table) => table,
        Err(not_merged) => {
            let status = tell_not_merged(verbosity, &not_merged, err);
            return MergedEnd { status, to };
        }
    };
    let TakenParts { merged, twice, .. } = taken;
    let _ = write_counted_twice(&merged.inputs, twice, err);
    let complete = merged.complete;
    let WrittenMerge { to, answer } = write_merge(alloc, job, merged, &table, to);
    if let Err(fault) = answer {
        let _ = write_run_fault(fault, err);
        let status = Status::Failed;
        return MergedEnd { status, to };
    }
    let _ = write_merged(job.parts.len(), table.len(), err);
    let status = ended_with(complete, verbosity);
    MergedEnd { status, to }
}

// Tells why parts were not merged.
fn tell_not_merged<E: WriteLines>(
    verbosity: Verbosity,
    not_merged: &NotMergedParts,
    err: &mut E,
) -> Status
    ensures status { result ≡ parts_status_of not_merged.now }
    ensures told { AreToldTo E.lines err.old err.new
        (not_merged_parts_lines verbosity not_merged.now) }
    ensures kept { StaysFailed E.lines err.old err.new }
{
    let _ = write_not_merged_parts(verbosity, not_merged, err);
    not_merged.status()
}

// How a run ends that wrote its table.
fn ended_with(complete: bool, verbosity: Verbosity) -> Status
    ensures { result ≡ ended_by complete verbosity.strict }
{
    if verbosity.strict && !complete {
        Status::SessionFault
    } else {
        Status::Well
    }
}
