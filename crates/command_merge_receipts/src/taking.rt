//! Parts that may be merged, by their receipts.

ghost use Rattle.std.specs.Prelude.{◌≡◌, ◌<◌, ℕ, length, IfErr, IfOk};
ghost use Rattle.command_merge_receipts.specs.Stops.{AreRefused, AreTaken, IsNumbered, IsTwice};

use crate::job::PartsJob;
use crate::not_merged::NotMergedParts;
use command_merge::NotMerged;
use flow_merge::MergeFault;
use input_files::ReadText;
use receipt_merging::{Judgement, MergedParts, PartFault, judge_parts};
use std::alloc::Global;
use table_parts::{NotRead, PartFiles, PartTable, read_parts, table_of_input, tables_of};

/// Parts that may be merged.
#[derive(Drop)]
pub struct TakenParts<'a> {
    /// What their receipts say together.
    pub merged: MergedParts,
    /// The places of two inputs that are the same and have data records, if there are such.
    pub twice: Option<(usize, usize)>,
    /// Their tables, as their receipts say them.
    pub tables: Vec<PartTable<'a>>,
}

/// Reads the receipts of all parts, and judges them; no table is read.
pub fn take_parts<'a, T: ReadText>(
    texts: &T,
    alloc: Global,
    job: &PartsJob<'a>,
) -> Result<TakenParts<'a>, NotMergedParts<'a>>
    ensures taken { IfOk result (AreTaken (T.has texts.now) job.now) }
    ensures refused { IfErr result (AreRefused (T.has texts.now) (T.refuses texts.now) job.now) }
{
    let parts = match read_parts(texts, alloc, job.parts, &job.plan) {
        Ok(parts) => parts,
        Err(NotRead::OutOfMemory) => return Err(without_memory()),
        Err(NotRead::Receipt(number, files, why)) => {
            return Err(NotMergedParts::Receipt(number, files, why));
        }
    };
    let Ok(tables) = tables_of(alloc, job.parts, &parts) else {
        return Err(without_memory());
    };
    match judge_parts(alloc, parts, job.allowed) {
        Judgement::Merged(merged, twice) => Ok(TakenParts {
            merged,
            twice,
            tables,
        }),
        Judgement::OtherPlan(place) => Err(part_fault(job.parts, place, PartFault::OtherPlan)),
        Judgement::Incomplete(place) => Err(part_fault(job.parts, place, PartFault::Incomplete)),
        Judgement::InputTwice(merged, first, second) => Err(twice(&tables, merged, first, second)),
        Judgement::OutOfMemory => Err(without_memory()),
    }
}

fn without_memory<'a>() -> NotMergedParts<'a>
    ensures { result ≡ NotMergedParts.NotMerged (NotMerged.Whole MergeFault.OutOfMemory) }
{
    NotMergedParts::NotMerged(NotMerged::Whole(MergeFault::OutOfMemory))
}

// The fault of the part at a place, counted from 0.
fn part_fault<'a>(all: &[PartFiles<'a>], place: usize, fault: PartFault) -> NotMergedParts<'a>
    requires { place < length all.now }
    ensures { (number : ℕ) × (files : PartFiles) × IsNumbered all.now place number files
        × (result ≡ NotMergedParts.Part number files fault) }
{
    NotMergedParts::Part(place + 1, all[place], fault)
}

// The fault of the part that has the second of two inputs that are the same.
fn twice<'a>(
    tables: &[PartTable<'a>],
    merged: MergedParts,
    first: usize,
    second: usize,
) -> NotMergedParts<'a>
    ensures { IsTwice tables.now merged first second result }
{
    match table_of_input(tables, second) {
        Some((number, files)) => {
            NotMergedParts::InputTwice(number, files, merged.inputs, first, second)
        }
        None => without_memory(),
    }
}
