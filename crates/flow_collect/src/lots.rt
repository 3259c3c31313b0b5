//! Lots: sources that are driven one after another on one thread, and the tables of lots, merged.

ghost use Rattle.std.specs.Prelude.{◌≡◌, ◌≤◌, IfOk, OnOk};
ghost use Rattle.std.specs.Thread.{IsSync};
ghost use Rattle.ipfix_message.specs.declared.record.DataRecord.{DataRecord};
ghost use Rattle.flow_table.specs.Partials.{plan_of};
ghost use Rattle.flow_collect.specs.Serials.{LotRan, MergesLots, RunsOne};

use crate::collected::FilteredReport;
use crate::session_context::InContext;
use crate::session_sinks::{first_sinks, told_at_end};
use flow_table::{Partial, Plan, TableFault};
use ipfix_message::DataRecord;
use ipfix_session::{Sink, Source, drive_in_full};
use std::alloc::{AllocError, Global};
use std::collections::VecDeque;
use std::thread::{Threads, join};

/// Sources that were driven, what each session tells of itself, in the same order, and the table of all
/// their records that count.
#[derive(Drop)]
pub struct Lot<S> {
    pub sources: Vec<S>,
    pub sessions: Vec<FilteredReport>,
    pub partial: Partial,
}

/// Adds each record to a table.
#[derive(Drop)]
struct TableSink {
    partial: Partial,
}

impl Sink for TableSink {
    ghost use Rattle.flow_collect.specs.Adds.{AddsTo};

    ghost seen = { record {
      took = λ before item after. AddsTo before.partial item after.partial;
      refused = λ s. 0;
    } };

    fn put(&mut self, item: DataRecord) -> Result<(), DataRecord> {
        // A fault of the table stays with it, and comes out when it is finished.
        let _ = self.partial.add(&item);
        Ok(())
    }
}

/// Cuts the sources into that many lots of neighbours, as even as can be, and drives each lot in a thread of its
/// own or, if none can be started, on this one. The tables of two halves are merged when both have ended.
#[cycle(halves)]
pub fn drive_lots<S: Source + Send + Drop, R: Threads + Sync>(
    rt: &R,
    alloc: Global,
    sources: Vec<InContext<S>>,
    plan: &Plan,
    lots: usize,
) -> Result<Lot<S>, AllocError>
    ensures { IfOk result (LotRan S.seen sources.entry.items plan.now) }
{
    if lots < 2 || sources.len() < 2 {
        return drive_in_turn(alloc, sources, plan);
    }
    let mut low = sources;
    let high = low.split_off(size_of_half(low.len(), lots))?;
    let front = move || -> Result<Lot<S>, AllocError>
        requires { IsSync R.row }
        ensures { IfOk result (LotRan S.seen low.entry.items plan.entry.now) }
    { drive_lots(rt, alloc, low, plan, lots / 2) };
    let back = move || -> Result<Lot<S>, AllocError>
        requires { IsSync R.row }
        ensures { IfOk result (LotRan S.seen high.entry.items plan.entry.now) }
    { drive_lots(rt, alloc, high, plan, lots - lots / 2) };
    let (first, second) = join(rt, front, back);
    let mut all = first?;
    merge_lots(&mut all, second?)?;
    Ok(all)
}

// How many of so many sources half of the lots get.
#[tactic(auto, using(crate::proofs::LotLists::half_fits))]
fn size_of_half(sources: usize, lots: usize) -> usize
    requires { 2 ≤ lots }
    ensures { result ≤ sources }
{
    let half = lots / 2;
    sources / lots * half + half.min(sources % lots)
}

/// Drives one source after another to its end, its first fault or 2^40 reads, and adds all records that count, each
/// with its session's context, to one table.
pub fn drive_in_turn<S: Source + Drop>(
    alloc: Global,
    sources: Vec<InContext<S>>,
    plan: &Plan,
) -> Result<Lot<S>, AllocError>
    ensures { IfOk result (LotRan S.seen sources.entry.items plan.now) }
{
    let Ok(partial) = Partial::new(alloc, plan) else {
        return Err(AllocError);
    };
    let mut waiting = VecDeque::from_vec(sources);
    let mut lot = Lot {
        sources: Vec::with_capacity(alloc, waiting.len())?,
        sessions: Vec::with_capacity(alloc, waiting.len())?,
        partial,
    };
    while let Some(next) = waiting.pop_front() {
        lot = drive_one(alloc, next, lot)?;
    }
    Ok(lot)
}

// Drives one source more.
fn drive_one<S: Source + Drop>(
    alloc: Global,
    next: InContext<S>,
    lot: Lot<S>,
) -> Result<Lot<S>, AllocError>
    ensures { IfOk result (RunsOne S.seen next.entry lot) }
{
    let InContext {
        mut source,
        context,
        filter,
    } = next;
    let Lot {
        mut sources,
        mut sessions,
        partial,
    } = lot;
    let mut sinks = first_sinks(alloc, context, filter, TableSink { partial })?;
    let full = drive_in_full(alloc, &mut source, &mut sinks, context.limits());
    if sinks.lost.is_some() || sinks.refused > 0 {
        return Err(AllocError);
    }
    let (report, sink) = told_at_end(alloc, sinks, full);
    let TableSink { partial } = sink;
    sources.push(source)?;
    sessions.push(report)?;
    Ok(Lot {
        sources,
        sessions,
        partial,
    })
}

// Adds a lot behind another. A fault stays in the table, and comes out when it is finished. But if the other's
// is want of memory, it is answered, so that no sum that is too large hides it.
fn merge_lots<S: Drop>(all: &mut Lot<S>, other: Lot<S>) -> Result<(), AllocError>
    requires { plan_of other.partial ≡ plan_of all.old.partial }
    ensures { OnOk result (MergesLots all.old other all.new) }
{
    let Lot {
        mut sources,
        mut sessions,
        partial,
    } = other;
    if partial.fault() == Some(TableFault::OutOfMemory) {
        return Err(AllocError);
    }
    let _ = all.partial.merge(partial);
    all.sources.append(&mut sources)?;
    all.sessions.append(&mut sessions)?;
    Ok(())
}
