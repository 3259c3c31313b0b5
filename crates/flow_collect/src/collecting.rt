//! Collecting in threads. What is handed from call to call, and what each holds then:
//!
//! ```text
//! deal         makes of each source, with its context and its filter, a Start: its number, these, and its link's sender,
//!              unused;
//!              makes for each link a LinkEnd: the session's number, and the receiver, unused;
//!              makes for each worker a WorkerShare: its number, its ends of links, and the table of no records.
//!
//! in_threads   gives each Start to a thread of its own, which hands back an EndedSession: the
//!              source as it was left, the report, and the sender, with all records that count and then Last sent;
//!              gives each WorkerShare to a thread of its own, which hands it back with Last taken from each
//!              end, and the table of all records that came over them.
//!              A thread that couldn't send or take all hands back nothing: the run has no answer.
//!
//! finish_all   makes of all shares one: the ends of all sessions' links, in order, and the table of all
//!              records;
//!              makes of each EndedSession and its LinkEnd a place in Parts: the report, the link, with
//!              both ends settled, and the source;
//!              makes of Parts and the table what `collect_flat` answers, Collected.
//! ```

ghost use Rattle.std.specs.Prelude.{◌≡◌, IfOk, IfErr, IfNone};
ghost use Rattle.flow_table.specs.Fitting.{FitsPlan};
ghost use Rattle.flow_collect.specs.Dealt.{IsCapacity};
ghost use Rattle.flow_collect.specs.Failures.{fault_in, IsLargeRun, TellsLarge};
ghost use Rattle.flow_collect.specs.InFull.{FullHeadline};
ghost use Rattle.flow_collect.specs.Rated.{TellNoFault};
ghost use Rattle.flow_collect.specs.Refusals.{fault_of_arguments, HasFaultsInContext};
ghost use Rattle.flow_collect.specs.Shortages.{IfAnswered, IfFailed};

use crate::collected::{Collected, FilteredReport, MAX_SESSIONS, MAX_WORKERS, Pool};
use crate::dealing::deal;
use crate::failure::CollectFailure;
use crate::fault::CollectFault;
use crate::gate::Gate;
use crate::judging::{refuse_sampled, sampling_failure, sampling_fault};
use crate::session_context::InContext;
use crate::settling::finish_all;
use crate::shortage::Shortage;
use crate::threads::in_threads;
use flow_link::MAX_CAPACITY;
use flow_table::{FlatTable, Plan};
use ipfix_session::Source;
use std::alloc::Global;
use std::sync::Wait;
use std::thread::Threads;

/// Does what [`collect`](crate::collect) does, appends what a session knows to each of its records, leaves out those
/// that its filter does not count, and reports each session in full: with what its domains passed over, the gaps after
/// their unknown sets, the place where it stopped, and how many records were left out. The rows of the table are made as they are asked for. The faults are the same; `OutOfMemory` may
/// come of appending, too.
pub fn collect_flat<S: Source + Send + Drop, G: Gate + Sync, R: Threads + Wait + Sync>(
    rt: &R,
    alloc: Global,
    sources: Vec<InContext<S>>,
    plan: &Plan,
    pool: Pool,
    gate: &G,
) -> Result<Collected<S, FilteredReport, FlatTable>, CollectFailure>
    // The headline, with each session's context and filter, and each report in full.
    ensures ok { IfOk result (FullHeadline S.seen sources.entry.items plan.now pool) }
    // The table fits the plan, as an export asks.
    ensures fits { IfOk result (λ c. FitsPlan plan.now c.table) }
    // No estimate is too large, and if sampled records are refused none is told of.
    ensures sampling { IfOk result (λ c. TellNoFault sources.entry.items c.sessions.items) }
    // Exactly the first fault of the arguments, if they have one; `SumTooLarge` and `Sampled` only if they are due.
    ensures faults { HasFaultsInContext S.seen sources.entry plan.now pool (fault_in result) }
    // Where a sum is too large: in which row of the records that sessions gave, and which session tells of a great counter.
    ensures large { IfErr result (TellsLarge S.seen plan.now sources.entry.items) }
{
    if let Some(fault) = judge(pool, sources.len()) {
        return Err(CollectFailure::only(fault));
    }
    let refuses = refuse_sampled(&sources);
    match collect_judged(rt, alloc, sources, plan, pool, gate) {
        Ok(Ok(collected)) => match sampling_fault(refuses, &collected.sessions) {
            Some(fault) => Err(sampling_failure(fault, &collected.sessions)),
            None => Ok(collected),
        },
        Ok(Err(failure)) => Err(failure),
        Err(Shortage::NoThread) => Err(CollectFailure::only(CollectFault::NoThread)),
        Err(Shortage::OutOfMemory) => Err(CollectFailure::only(CollectFault::OutOfMemory)),
    }
}

/// The first of `Workers`, `Sessions` and `Link` that a pool and that many sources have, if they have one.
/// Collecting answers it before anything is read.
pub fn refusal(pool: Pool, sessions: usize) -> Option<CollectFault>
    ensures { result ≡ fault_of_arguments pool sessions }
{
    judge(pool, sessions)
}

// The first fault of the arguments.
fn judge(pool: Pool, sessions: usize) -> Option<CollectFault>
    ensures fault { result ≡ fault_of_arguments pool sessions }
    ensures fits { IfNone result (IsCapacity pool.capacity) }
{
    if pool.workers == 0 || pool.workers > MAX_WORKERS {
        return Some(CollectFault::Workers);
    }
    if sessions == 0 || sessions > MAX_SESSIONS {
        return Some(CollectFault::Sessions);
    }
    if pool.capacity == 0 || pool.capacity > MAX_CAPACITY {
        return Some(CollectFault::Link);
    }
    None
}

// The same for arguments without a fault.
fn collect_judged<S: Source + Send + Drop, G: Gate + Sync, R: Threads + Wait + Sync>(
    rt: &R,
    alloc: Global,
    sources: Vec<InContext<S>>,
    plan: &Plan,
    pool: Pool,
    gate: &G,
) -> Result<Result<Collected<S, FilteredReport, FlatTable>, CollectFailure>, Shortage>
    requires { IsCapacity pool.capacity }
    ensures headline { IfAnswered result
        (FullHeadline S.seen sources.entry.items plan.now pool) }
    ensures fits { IfAnswered result (λ c. FitsPlan plan.now c.table) }
    ensures large { IfFailed result (IsLargeRun S.seen plan.now sources.entry.items) }
{
    let (starts, shares) = deal(alloc, sources, plan, pool)?;
    let (ended, worked) = in_threads(rt, alloc, gate, starts, shares)?;
    let answer = finish_all(rt, alloc, ended, worked)?;
    Ok(answer)
}
