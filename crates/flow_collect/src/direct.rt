//! Collecting without links.

ghost use Rattle.std.specs.Prelude.{◌≡◌, IfOk, IfErr, IsErrOf};
ghost use Rattle.flow_table.specs.Fitting.{FitsPlan};
ghost use Rattle.flow_collect.specs.Failures.{fault_in, IsLargeRun, TellsLarge};
ghost use Rattle.flow_collect.specs.InFull.{FullSerialHeadline};
ghost use Rattle.flow_collect.specs.Rated.{TellNoFault};
ghost use Rattle.flow_collect.specs.Refusals.{fault_of_lots, HasFaultsInLots};
ghost use Rattle.flow_collect.specs.Shortages.{IfAnswered, IfFailed};

use crate::collected::{FilteredReport, MAX_WORKERS, Serial};
use crate::failure::CollectFailure;
use crate::fault::CollectFault;
use crate::judging::{refuse_sampled, sampling_failure, sampling_fault};
use crate::lots::{Lot, drive_lots};
use crate::session_context::InContext;
use flow_table::{FlatTable, Plan, TableFault};
use ipfix_session::Source;
use std::alloc::{AllocError, Global};
use std::thread::Threads;

/// Collects without links, from any number of sources: cuts them into at most `lots` lots of neighbours, as even
/// as can be, drives the sources of a lot one after another on one thread, the lots side by side, and merges the
/// lots' tables by halves. A lot for which no thread can be had is driven on this one. What a session knows is
/// appended to each of its records, and of these the table is of those that its filter counts. Each session is reported
/// in full, and the rows of the table are made as they are asked for.
///
/// It reads a source at most [`READ_LIMIT`](crate::READ_LIMIT) times. A session's own fault stands in its report. Each
/// thread has ended when it returns.
///
/// The fault is `Workers` if `lots` is 0 or above [`MAX_WORKERS`], else `Sessions` for no source; then nothing was
/// read. Else it is `OutOfMemory` where an allocation outside the sessions was refused, before `SumTooLarge`. A
/// fault drops the sources.
pub fn collect_direct<S: Source + Send + Drop, R: Threads + Sync>(
    rt: &R,
    alloc: Global,
    sources: Vec<InContext<S>>,
    plan: &Plan,
    lots: usize,
) -> Result<Serial<S, FilteredReport, FlatTable>, CollectFailure>
    // The headline, without links, with each session's context, and each report in full.
    ensures ok { IfOk result (FullSerialHeadline S.seen sources.entry.items plan.now) }
    // The table fits the plan, as an export asks.
    ensures fits { IfOk result (λ s. FitsPlan plan.now s.table) }
    // No estimate is too large, and if sampled records are refused none is told of.
    ensures sampling { IfOk result (λ s. TellNoFault sources.entry.items s.sessions.items) }
    // Exactly the first fault of the arguments, if they have one; `SumTooLarge` and `Sampled` only if they are due.
    ensures faults { HasFaultsInLots S.seen sources.entry plan.now lots (fault_in result) }
    // Where a sum is too large, as `collect_flat` tells it.
    ensures large { IfErr result (TellsLarge S.seen plan.now sources.entry.items) }
    // There is always a thread: this one.
    ensures has_thread { IsErrOf (fault_in result) CollectFault.NoThread → ⊥ }
{
    if let Some(fault) = direct_refusal(lots, sources.len()) {
        return Err(CollectFailure::only(fault));
    }
    let refuses = refuse_sampled(&sources);
    match collect_lots(rt, alloc, sources, plan, lots) {
        Ok(Ok(serial)) => match sampling_fault(refuses, &serial.sessions) {
            Some(fault) => Err(sampling_failure(fault, &serial.sessions)),
            None => Ok(serial),
        },
        Ok(Err(failure)) => Err(failure),
        Err(AllocError) => Err(CollectFailure::only(CollectFault::OutOfMemory)),
    }
}

/// The first of `Workers` and `Sessions` that so many lots and sources have, if they have one.
/// [`collect_direct`] answers it before anything is read.
pub fn direct_refusal(lots: usize, sessions: usize) -> Option<CollectFault>
    ensures { result ≡ fault_of_lots lots sessions }
{
    if lots == 0 || lots > MAX_WORKERS {
        return Some(CollectFault::Workers);
    }
    if sessions == 0 {
        return Some(CollectFault::Sessions);
    }
    None
}

// The same for arguments without a fault.
fn collect_lots<S: Source + Send + Drop, R: Threads + Sync>(
    rt: &R,
    alloc: Global,
    sources: Vec<InContext<S>>,
    plan: &Plan,
    lots: usize,
) -> Result<Result<Serial<S, FilteredReport, FlatTable>, CollectFailure>, AllocError>
    ensures headline { IfAnswered result
        (FullSerialHeadline S.seen sources.entry.items plan.now) }
    ensures fits { IfAnswered result (λ s. FitsPlan plan.now s.table) }
    ensures large { IfFailed result (IsLargeRun S.seen plan.now sources.entry.items) }
{
    // A lot has at least one source.
    let lots = lots.min(sources.len());
    let lot = drive_lots(rt, alloc, sources, plan, lots)?;
    let Lot {
        sources,
        sessions,
        partial,
    } = lot;
    let row = partial.large_row()?;
    let table = match partial.finish_flat() {
        Ok(table) => table,
        Err(TableFault::SumTooLarge) => return Ok(Err(CollectFailure::large(row, &sessions))),
        Err(TableFault::OutOfMemory) => return Err(AllocError),
    };
    Ok(Ok(Serial {
        sessions,
        sources,
        table,
    }))
}
