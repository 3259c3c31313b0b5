//! Merging the tables of the parts of a day, as `merge --receipts --incomplete --receipt` does; but inputs that come twice don't
//! keep the others from being merged.

ghost use Rattle.std.specs.Prelude.{◌≡◌, IfErr, IfOk};
ghost use Rattle.flow_merge.specs.RowRecords.{CanTakeRows};
ghost use Rattle.report_writing.specs.Told.{AreToldTo};
ghost use Rattle.command_tables.specs.Merged.{EndsWith, EndsWithout, IsMergeOf, IsNotMerged, IsRun, merged_value, parts_job, text_kept};

use super::day_job::DayJob;
use command_merge::MergeJob;
use command_merge_receipts::{MergedEnd, MergedTo, PartsJob, run_merge_parts};
use flow_export::Intervals;
use input_files::ReadText;
use period_collect::KeptReceipt;
use receipt_merging::Allowed;
use report_writing::{Status, WriteLines};
use std::alloc::Global;
use table_parts::PartFiles;

/// What the parts of a day are merged for all that: the table is not complete then, and nobody keeps it from the others.
pub(crate) const ALLOWED: Allowed = Allowed {
    incomplete: true,
    twice: true,
};

/// The text of a merged table, and that of its receipt.
#[derive(Drop)]
pub(crate) struct MergedTable {
    pub text: Vec<u8>,
    pub receipt: Vec<u8>,
    /// Whether the run ended with status 1: it is strict, and a part isn't complete.
    pub had_fault: bool,
}

/// The table of these parts, and its receipt. An `Err` is the status with which the merge ended; `err` has the lines that say why.
pub(crate) fn merge_of<X: ReadText, E: WriteLines>(
    texts: &X,
    alloc: Global,
    job: &DayJob,
    parts: &[PartFiles],
    err: &mut E,
) -> Result<MergedTable, Status>
    ensures merged { IfOk result (λ made. IsMergeOf (X.has texts.now) (X.refuses texts.now) job.now parts.entry (AreToldTo E.lines err.old err.new)
        (merged_value made)) }
    ensures err { IfErr result (IsNotMerged (X.has texts.now) (X.refuses texts.now) job.now parts.entry (AreToldTo E.lines err.old err.new)) }
{
    merged_table(run_merge(texts, alloc, job, parts, err))
}

// The run of a merge of these parts.
fn run_merge<X: ReadText, E: WriteLines>(
    texts: &X,
    alloc: Global,
    job: &DayJob,
    parts: &[PartFiles],
    err: &mut E,
) -> MergedEnd<Vec<u8>, KeptReceipt>
    ensures { IsRun (X.has texts.now) (X.refuses texts.now) job.now parts.entry (AreToldTo E.lines err.old err.new) result }
{
    let to = MergedTo {
        out: Vec::new(alloc),
        place: Some(KeptReceipt::new(alloc)),
    };
    run_merge_parts(texts, alloc, &job_of(job, parts), to, err)
}

// What the merge is to do.
fn job_of<'a>(job: &DayJob<'a>, parts: &'a [PartFiles<'a>]) -> PartsJob<'a>
    ensures job { result ≡ parts_job job.now parts.entry }
    ensures rows { CanTakeRows result.merge.intervals }
{
    let text = &job.text;
    PartsJob {
        merge: MergeJob {
            elements: text.elements,
            plan: text.plan,
            intervals: Intervals::OfPlan,
            output: text.output,
            verbosity: job.verbosity,
        },
        plan: text.at_hand,
        parts,
        allowed: ALLOWED,
        into: None,
        collectd: text.collectd,
    }
}

// The table of a run, if it ended with one.
fn merged_table(ended: MergedEnd<Vec<u8>, KeptReceipt>) -> Result<MergedTable, Status>
    ensures merged { IfOk result (λ made. EndsWith ended (merged_value made)) }
    ensures err { IfErr result (EndsWithout ended) }
{
    let MergedEnd { status, to } = ended;
    let MergedTo { out, place } = to;
    match (status, kept_text(place)) {
        (Status::Well, Some(receipt)) => Ok(MergedTable {
            text: out,
            receipt,
            had_fault: false,
        }),
        (Status::SessionFault, Some(receipt)) => Ok(MergedTable {
            text: out,
            receipt,
            had_fault: true,
        }),
        (Status::NotOpened, _) => Err(Status::NotOpened),
        (Status::Failed, _) | (_, None) => Err(Status::Failed),
    }
}

// The text of the receipt that was put at a place, if one was.
fn kept_text(place: Option<KeptReceipt>) -> Option<Vec<u8>>
    ensures { result ≡ text_kept place }
{
    match place {
        Some(kept) => kept.text,
        None => None,
    }
}
