//! Many exports merged.

ghost use Rattle.std.specs.Prelude.{◌≡◌, ◌⊎◌, IfErr, IfOk, OnOk};
ghost use Rattle.flow_table.specs.AddedUp.{HasTooLargeRow};
ghost use Rattle.flow_table.specs.Fitting.{FitsPlan};
ghost use Rattle.flow_merge.specs.Merging.{AddsAllUp, no_records, none_missing};
ghost use Rattle.flow_merge.specs.declared.merge_fault.MergeFault.TheVariants.{OutOfMemory};
ghost use Rattle.laws_merge.specs.Exports.{HasRowsOfAll, IfExportsOf, IsFaultOfExports, StopsAt};

use flow_export::Intervals;
use flow_merge::{MergeFault, Merging};
use flow_table::{FlatTable, Plan};
use ipfix_session::Source;
use std::alloc::Global;
use std::collections::VecDeque;

/// Merges the exports that the sources hold, one after another, each in at most `limit` reads: if they
/// are those of the tables of some lists of records, the rows are those of the table of all these
/// records (RFC 7015, section 5). Its tally is 0, and nothing is missing.
///
/// The fault is that of the first source that has one, as [`Merging::read`] answers it, or
/// `OutOfMemory`.
pub fn merge<S: Source + Drop>(
    alloc: Global,
    plan: &Plan,
    sources: Vec<S>,
    limit: u64,
) -> Result<FlatTable, MergeFault>
    // Each source gave an export, and the rows of all of them are added up.
    ensures read { IfOk result (AddsAllUp S.seen limit plan.now sources.items) }
    // Else the fault is want of memory, or that of the first source that has one.
    ensures stops { IfErr result (λ e. (e ≡ OutOfMemory)
        ⊎ StopsAt S.seen limit plan.now sources.items e) }
    // Of exports of tables these are the rows of the table of all their records.
    ensures rows { IfOk result (HasRowsOfAll S.seen plan.now sources.items) }
    // `Ok` only if no sum and no number of flows of that table is too large, `SumTooLarge` only if one is.
    ensures small { IfExportsOf S.seen plan.now sources.items
        (λ records. OnOk result (HasTooLargeRow plan.now records → ⊥)) }
    ensures fault { IfErr result (IsFaultOfExports S.seen plan.now sources.items) }
    // The table fits the plan, as an export asks.
    ensures fits { IfOk result (FitsPlan plan.now) }
    ensures tally { IfOk result (λ table. table.tally ≡ no_records) }
    ensures missing { IfOk result (λ table. table.missing ≡ none_missing) }
{
    let mut merging = Merging::new(alloc, plan, Intervals::OfPlan)?;
    let mut waiting = VecDeque::from_vec(sources);
    while let Some(source) = waiting.pop_front() {
        let mut source = source;
        merging = merging.read(&mut source, limit)?;
    }
    merging.finish()
}
