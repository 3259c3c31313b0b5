//! The answer of a run.

ghost use Rattle.std.specs.Prelude.{All, map};
ghost use Rattle.flow_table.specs.Plans.{PlanValue};
ghost use Rattle.flow_collect.specs.Dealt.{IsPaired};
ghost use Rattle.flow_collect.specs.Finished.{ForPlanOf, HasTaken, ended_link, link_ends_of, FinishedAs, IsOverfull};
ghost use Rattle.flow_collect.specs.Shortages.{IfAnswered, IfFailed};

use super::Parts;
use super::gathering::gather;
use super::pairing::settle_all;
use crate::collected::{Collected, FilteredReport};
use crate::failure::CollectFailure;
use crate::session_thread::EndedSession;
use crate::shortage::Shortage;
use crate::worker::WorkerShare;
use flow_table::{FlatTable, TableFault};
use std::alloc::Global;
use std::collections::VecDeque;
use std::thread::Threads;

/// Settles the links and merges the tables, unless a sum is too large.
pub fn finish_all<S: Drop, R: Threads + Sync>(
    rt: &R,
    alloc: Global,
    ended: VecDeque<EndedSession<S>>,
    worked: VecDeque<WorkerShare>,
) -> Result<Result<Collected<S, FilteredReport, FlatTable>, CollectFailure>, Shortage>
    requires taken { (plan : PlanValue) × All (HasTaken plan) worked.items }
    requires paired { All (IsPaired (map ended_link ended.items)) (link_ends_of worked.items) }
    ensures ok { ForPlanOf worked.items (λ plan.
        IfAnswered result (FinishedAs plan ended.items)) }
    ensures large { ForPlanOf worked.items (λ plan.
        IfFailed result (IsOverfull plan ended.items)) }
{
    let all = gather(rt, worked)?;
    let WorkerShare {
        link_ends,
        partial,
        ..
    } = all;
    let parts = settle_all(alloc, ended, VecDeque::from_vec(link_ends))?;
    let row = partial.large_row()?;
    let table = match partial.finish_flat() {
        Ok(table) => table,
        Err(TableFault::SumTooLarge) => {
            return Ok(Err(CollectFailure::large(row, &parts.sessions)));
        }
        Err(TableFault::OutOfMemory) => return Err(Shortage::OutOfMemory),
    };
    let Parts {
        sessions,
        links,
        sources,
    } = parts;
    Ok(Ok(Collected {
        sessions,
        links,
        sources,
        table,
    }))
}
