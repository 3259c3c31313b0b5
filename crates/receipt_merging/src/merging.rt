//! Receipts of parts, judged and merged.

ghost use Rattle.std.specs.Prelude.{◌≡◌, ◌++◌, ◌&&◌, List, IfOk, map, string_bytes};
ghost use Rattle.table_receipts.specs.Values.{input_value};
ghost use Rattle.receipt_merging.specs.Judging.{AreGathered, IsJudgementOf, MayBeMerged};
ghost use Rattle.receipt_merging.specs.Once.{AreFound};
ghost use Rattle.receipt_merging.specs.Parts.{PartValue, add_counts as sum_counts, part_value};

use crate::counts::{add_counts, no_records};
use crate::once::first_twice;
use crate::parts::{Allowed, Part, first_incomplete, first_of_other_plan};
use std::alloc::{AllocError, Global};
use std::collections::VecDeque;
use table_receipts::{InputReceipt, Receipt, RecordCounts};

/// What the receipts of parts say together.
#[derive(Drop)]
pub struct MergedParts {
    /// The inputs of all parts, in their order.
    pub inputs: Vec<InputReceipt>,
    /// How many of their records are of each class; a count stops at 2^64 - 1.
    pub records: RecordCounts,
    /// The names of the inputs that were left out of a part, in the order of the parts.
    pub left_out: Vec<String>,
    /// Whether all are complete, and no two inputs with data records have the same octets.
    pub complete: bool,
}

/// Whether parts may be merged.
#[derive(Drop)]
pub enum Judgement {
    /// They may. The inputs at these places among all inputs are the same, and have data records, if there are such: they are
    /// counted twice.
    Merged(MergedParts, Option<(usize, usize)>),
    /// The part at this place, counted from 0, has another plan.
    OtherPlan(usize),
    /// The part at this place isn't complete.
    Incomplete(usize),
    /// The inputs at these places among all inputs are the same, and have data records: they would be counted twice.
    InputTwice(MergedParts, usize, usize),
    OutOfMemory,
}

/// Judges the receipts of parts, and merges them. Parts that aren't complete, and inputs that come twice, are let through if
/// they are allowed.
pub fn judge_parts(alloc: Global, parts: Vec<Part>, allowed: Allowed) -> Judgement
    ensures { IsJudgementOf allowed (map part_value parts.items) result }
{
    if let Some(place) = first_of_other_plan(&parts) {
        return Judgement::OtherPlan(place);
    }
    if !allowed.incomplete
        && let Some(place) = first_incomplete(&parts)
    {
        return Judgement::Incomplete(place);
    }
    let Ok(merged) = merge_parts(alloc, parts) else {
        return Judgement::OutOfMemory;
    };
    match first_twice(alloc, &merged.inputs) {
        Ok(twice) => judge_twice(merged, twice, allowed),
        Err(AllocError) => Judgement::OutOfMemory,
    }
}

// Judges whether parts may be merged of which these two inputs are the same, if there are such.
fn judge_twice(merged: MergedParts, twice: Option<(usize, usize)>, allowed: Allowed) -> Judgement
    ensures { (parts : List PartValue) → MayBeMerged allowed parts → AreGathered parts merged
        → AreFound (map input_value merged.inputs.items) twice → IsJudgementOf allowed parts result }
{
    let Some((first, second)) = twice else {
        return Judgement::Merged(merged, None);
    };
    let merged = MergedParts {
        complete: false,
        ..merged
    };
    if allowed.twice {
        Judgement::Merged(merged, Some((first, second)))
    } else {
        Judgement::InputTwice(merged, first, second)
    }
}

// What their receipts say together.
fn merge_parts(alloc: Global, parts: Vec<Part>) -> Result<MergedParts, AllocError>
    ensures { IfOk result (AreGathered (map part_value parts.items)) }
{
    let mut waiting = VecDeque::from_vec(parts);
    let mut merged = MergedParts {
        inputs: Vec::new(alloc),
        records: no_records(),
        left_out: Vec::new(alloc),
        complete: true,
    };
    while let Some(part) = waiting.pop_front() {
        let Part { receipt, .. } = part;
        merged = add_part(merged, receipt)?;
    }
    Ok(merged)
}

// The same with one more.
fn add_part(merged: MergedParts, receipt: Receipt) -> Result<MergedParts, AllocError>
    ensures inputs { IfOk result (λ more. map input_value more.inputs.items
        ≡ map input_value merged.inputs.items ++ map input_value receipt.inputs.items) }
    ensures records { IfOk result (λ more. more.records
        ≡ sum_counts merged.records receipt.records) }
    ensures left_out { IfOk result (λ more. map string_bytes more.left_out.items
        ≡ map string_bytes merged.left_out.items ++ map string_bytes receipt.left_out.items) }
    ensures complete { IfOk result (λ more. more.complete ≡ (receipt.complete && merged.complete)) }
{
    let MergedParts {
        mut inputs,
        records,
        mut left_out,
        complete,
    } = merged;
    let Receipt {
        inputs: mut others,
        records: more,
        left_out: mut more_left_out,
        complete: is_complete,
        ..
    } = receipt;
    inputs.append(&mut others)?;
    left_out.append(&mut more_left_out)?;
    Ok(MergedParts {
        inputs,
        records: add_counts(records, more),
        left_out,
        complete: is_complete && complete,
    })
}
