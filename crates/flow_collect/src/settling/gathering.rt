//! The tables of all workers, merged.

ghost use Rattle.std.specs.Prelude.{◌≡◌, ◌++◌, All, IfOk, OnOk, IsPermutation};
ghost use Rattle.std.specs.Thread.{IsSync};
ghost use Rattle.flow_table.specs.Partials.{ForBoth, StandsFor, plan_of};
ghost use Rattle.flow_table.specs.Plans.{PlanValue};
ghost use Rattle.flow_collect.specs.Finished.{ForPlanOf, HasTaken, IsMerged, link_ends_of};
ghost use Rattle.flow_collect.specs.LinkEnds.{AreInOrder, StandsForLinkEnds, link_ends_in};

use crate::shortage::Shortage;
use crate::worker::{LinkEnd, WorkerShare};
use flow_table::TableFault;
use std::collections::VecDeque;
use std::thread::{Threads, join};

/// Merges the workers' tables, and puts their ends of links in the order of the sessions, as if one worker
/// had taken all. If a worker ran out of memory, that is answered before any sum that is too
/// large.
pub fn gather<R: Threads + Sync>(
    rt: &R,
    worked: VecDeque<WorkerShare>,
) -> Result<WorkerShare, Shortage>
    requires { (plan : PlanValue) × All (HasTaken plan) worked.items }
    ensures ends { IfOk result (λ all.
        IsPermutation (link_ends_of worked.items) (link_ends_in all)) }
    ensures order { IfOk result (λ all. AreInOrder all.link_ends.items) }
    ensures table { IfOk result (λ all. StandsForLinkEnds all.partial all.link_ends.items) }
    ensures plan { ForPlanOf worked.items (λ plan.
        IfOk result (λ all. plan_of all.partial ≡ plan)) }
{
    let mut all = merge_all(rt, worked)?;
    sort_link_ends(&mut all.link_ends);
    Ok(all)
}

// Merges each half by itself and then both: the first in a thread of its own or, if none can be
// started, on this one. No merge waits for another than those of its own halves.
#[cycle(halves)]
fn merge_all<R: Threads + Sync>(
    rt: &R,
    worked: VecDeque<WorkerShare>,
) -> Result<WorkerShare, Shortage>
    requires { (plan : PlanValue) × All (HasTaken plan) worked.items }
    ensures { IfOk result (IsMerged worked.items) }
{
    if worked.len() < 4 {
        return merge_in_turn(worked);
    }
    let mut low = worked;
    let high = low.split_off(low.len() / 2)?;
    let front = move || -> Result<WorkerShare, Shortage>
        requires { IsSync R.row × ((plan : PlanValue) × All (HasTaken plan) low.items) }
        ensures { IfOk result (IsMerged low.items) }
    { merge_all(rt, low) };
    let back = move || -> Result<WorkerShare, Shortage>
        requires { IsSync R.row × ((plan : PlanValue) × All (HasTaken plan) high.items) }
        ensures { IfOk result (IsMerged high.items) }
    { merge_all(rt, high) };
    let (first, second) = join(rt, front, back);
    let mut all = first?;
    merge_one(&mut all, second?)?;
    Ok(all)
}

fn merge_in_turn(worked: VecDeque<WorkerShare>) -> Result<WorkerShare, Shortage>
    requires { (plan : PlanValue) × All (HasTaken plan) worked.items }
    ensures { IfOk result (IsMerged worked.items) }
{
    let mut worked = worked;
    let Some(first) = worked.pop_front() else {
        return Err(Shortage::NoThread);
    };
    let mut all = first;
    while let Some(other) = worked.pop_front() {
        merge_one(&mut all, other)?;
    }
    Ok(all)
}

// Adds what another worker took. A fault stays in the table, and comes out when it is finished. But
// if the other's is want of memory, it is answered, so that no sum that is too large hides it.
fn merge_one(all: &mut WorkerShare, other: WorkerShare) -> Result<(), Shortage>
    requires { plan_of other.partial ≡ plan_of all.old.partial }
    ensures ends { OnOk result
        (link_ends_in all.new ≡ link_ends_in all.old ++ link_ends_in other) }
    ensures plan { OnOk result (plan_of all.new.partial ≡ plan_of all.old.partial) }
    ensures merges { OnOk result
        (ForBoth all.old.partial other.partial (StandsFor all.new.partial)) }
{
    let WorkerShare {
        mut link_ends,
        partial,
        ..
    } = other;
    if partial.fault() == Some(TableFault::OutOfMemory) {
        return Err(Shortage::OutOfMemory);
    }
    let _ = all.partial.merge(partial);
    all.link_ends.append(&mut link_ends)?;
    Ok(())
}

fn sort_link_ends(link_ends: &mut Vec<LinkEnd>)
    ensures same { IsPermutation link_ends.old.items link_ends.new.items }
    ensures order { AreInOrder link_ends.new.items }
{
    link_ends.sort_unstable_by_key(|link_end| link_end.session);
}
