//! A link for each session, whose receiving ends are dealt out to the workers.

ghost use Rattle.std.specs.Prelude.{◌≡◌, [], All, IfOk, OnOk, IfSome, length};
ghost use Rattle.flow_link.specs.Ends.{IsNewLink};
ghost use Rattle.flow_collect.specs.Dealt.{IsCapacity, IsDealt, IsNewShare, DealsOne};

use crate::collected::Pool;
use crate::session_context::InContext;
use crate::session_thread::Start;
use crate::shortage::Shortage;
use crate::worker::{LinkEnd, WorkerShare};
use flow_link::{LinkFault, Receiver, Sender, link};
use flow_table::{Partial, Plan};
use std::alloc::Global;
use std::collections::VecDeque;

/// Makes a link for each source. Its sending end stands in the first part, in the order of the
/// sources. Its receiving end goes to the shares of the workers, by turns.
pub fn deal<'a, S: Drop>(
    alloc: Global,
    sources: Vec<InContext<'a, S>>,
    plan: &Plan,
    pool: Pool,
) -> Result<(VecDeque<Start<'a, S>>, VecDeque<WorkerShare>), Shortage>
    requires { IsCapacity pool.capacity }
    ensures dealt { IfOk result (λ d.
        IsDealt plan.now pool sources.entry.items d.0.items d.1.items) }
    ensures workers { IfOk result (λ d. length d.1.items ≡ pool.workers) }
{
    let mut sources = VecDeque::from_vec(sources);
    let mut starts = VecDeque::new(alloc);
    let mut shares = empty_shares(alloc, plan, pool.workers)?;
    while let Some(source) = sources.pop_front() {
        deal_one(alloc, pool.capacity, source, &mut starts, &mut shares)?;
    }
    Ok((starts, shares))
}

fn empty_shares(
    alloc: Global,
    plan: &Plan,
    workers: usize,
) -> Result<VecDeque<WorkerShare>, Shortage>
    ensures new { IfOk result (λ shares. All (IsNewShare plan.now []) shares.items) }
    ensures count { IfOk result (λ shares. length shares.items ≡ workers) }
{
    let mut shares = VecDeque::new(alloc);
    for worker in 0..workers {
        let share = empty_share(alloc, plan, worker)?;
        shares.push_back(share)?;
    }
    Ok(shares)
}

fn empty_share(alloc: Global, plan: &Plan, worker: usize) -> Result<WorkerShare, Shortage>
    ensures { IfOk result (λ share. IsNewShare plan.now [] share) }
{
    let Ok(partial) = Partial::new(alloc, plan) else {
        return Err(Shortage::OutOfMemory);
    };
    Ok(WorkerShare {
        worker,
        link_ends: Vec::new(alloc),
        partial,
    })
}

// A new link: its sender goes to the source, and its receiver to the first share, which goes to the
// end.
fn deal_one<'a, S: Drop>(
    alloc: Global,
    capacity: usize,
    given: InContext<'a, S>,
    starts: &mut VecDeque<Start<'a, S>>,
    shares: &mut VecDeque<WorkerShare>,
) -> Result<(), Shortage>
    requires { IsCapacity capacity }
    ensures { OnOk result
        (DealsOne capacity given.entry starts.old shares.old starts.new shares.new) }
{
    let (sender, receiver) = new_link(alloc, capacity)?;
    let Some(mut share) = shares.pop_front() else {
        return Err(Shortage::NoThread);
    };
    let session = starts.len();
    let InContext {
        source,
        context,
        filter,
    } = given;
    let link_end = new_link_end(session, receiver);
    starts.push_back(Start {
        session,
        source,
        context,
        filter,
        sender,
    })?;
    share.link_ends.push(link_end)?;
    shares.push_back(share)?;
    Ok(())
}

fn new_link(alloc: Global, capacity: usize) -> Result<(Sender, Receiver), Shortage>
    requires { IsCapacity capacity }
    ensures { IfOk result (λ ends. IsNewLink capacity ends.0 ends.1) }
{
    match link(alloc, capacity) {
        Ok(ends) => Ok(ends),
        Err(LinkFault::Capacity) => unreachable!(),
        Err(LinkFault::OutOfMemory) => Err(Shortage::OutOfMemory),
    }
}

fn new_link_end(session: usize, receiver: Receiver) -> LinkEnd
    requires { receiver.received ≡ [] }
    ensures { (result.session ≡ session) × (result.receiver ≡ receiver) }
{
    LinkEnd {
        session,
        receiver,
        last: false,
    }
}
