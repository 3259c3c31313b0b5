//! Collecting with reports that aren't in full, and with all rows of the table.

ghost use Rattle.std.specs.Prelude.{◌≡◌, IfOk};
ghost use Rattle.flow_table.specs.Fitting.{FitsPlan};
ghost use Rattle.flow_collect.specs.Headline.{Headline};
ghost use Rattle.flow_collect.specs.InFull.{IsWithoutRest, fulls_in, reports_in};
ghost use Rattle.flow_collect.specs.Refusals.{HasFaults};

use crate::collected::{Collected, FilteredReport, Pool};
use crate::collecting::{collect_flat, refusal};
use crate::fault::CollectFault;
use crate::gate::Gate;
use crate::session_context::in_no_context;
use flow_table::{FlatTable, Plan};
use ipfix_session::{SessionReport, Source};
use std::alloc::{AllocError, Global};
use std::collections::VecDeque;
use std::sync::Wait;
use std::thread::Threads;

/// Runs each source as a session in a thread of its own, and adds up their records in the threads of
/// the workers. Session i, counted from 0, sends over a link of its own to worker `i mod workers`.
///
/// It reads a source at most [`READ_LIMIT`](crate::READ_LIMIT) times. A session's own fault stands in its
/// report, also if memory ran out in the session. The tables of four and more workers are merged by
/// halves, side by side in threads; a half for which no thread can be had is merged on this one. Each
/// thread has ended when it returns.
///
/// The fault is the first of `Workers`, `Sessions` and `Link` that the arguments have, and then nothing
/// was read; else `NoThread` before `OutOfMemory`, and this before `SumTooLarge`. A fault drops the
/// sources.
pub fn collect<S: Source + Send + Drop, G: Gate + Sync, R: Threads + Wait + Sync>(
    rt: &R,
    alloc: Global,
    sources: Vec<S>,
    plan: &Plan,
    pool: Pool,
    gate: &G,
) -> Result<Collected<S>, CollectFault>
    // The headline.
    ensures ok { IfOk result (λ c. Headline S.seen sources.items plan.now pool c) }
    // The table fits the plan, as an export asks.
    ensures fits { IfOk result (λ c. FitsPlan plan.now c.table) }
    // Exactly the first fault of the arguments, if they have one; `SumTooLarge` only if it is due.
    ensures faults { HasFaults S.seen sources plan.now pool result }
{
    if let Some(fault) = refusal(pool, sources.len()) {
        return Err(fault);
    }
    let sources = in_no_context(alloc, sources)?;
    let collected = match collect_flat(rt, alloc, sources, plan, pool, gate) {
        Ok(collected) => collected,
        Err(failure) => return Err(failure.fault),
    };
    let short = without_rest(alloc, collected)?;
    Ok(short)
}

fn without_rest<S: Drop>(
    alloc: Global,
    collected: Collected<S, FilteredReport, FlatTable>,
) -> Result<Collected<S>, AllocError>
    ensures { IfOk result (λ short. IsWithoutRest collected short) }
{
    let Collected {
        sessions,
        links,
        sources,
        table,
    } = collected;
    let sessions = short_reports(alloc, sessions)?;
    let table = table.into_table()?;
    Ok(Collected {
        sessions,
        links,
        sources,
        table,
    })
}

fn report_of(told: FilteredReport) -> SessionReport
    ensures { result ≡ told.full.report }
{
    told.full.report
}

/// The reports without the rest.
pub fn short_reports(
    alloc: Global,
    sessions: Vec<FilteredReport>,
) -> Result<Vec<SessionReport>, AllocError>
    ensures { IfOk result (λ reports. reports.items ≡ reports_in (fulls_in sessions.items)) }
{
    let mut waiting = VecDeque::from_vec(sessions);
    let mut reports = Vec::new(alloc);
    while let Some(told) = waiting.pop_front() {
        reports.push(report_of(told))?;
    }
    Ok(reports)
}
