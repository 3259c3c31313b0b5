//! Rounds of a worker.

ghost use Rattle.std.specs.Prelude.{◌≡◌, [], ◌∷◌, All, IfOk, IsTrue};
ghost use Rattle.flow_link.specs.Parcels.{is_last, records_in};
ghost use Rattle.flow_collect.specs.Adds.{AddsAll};
ghost use Rattle.flow_collect.specs.LinkEnds.{TakesInto, RoundsInto, IsEnded, IsUnused, WorkerRan};

use super::{LinkEnd, WorkerShare};
use crate::gate::Gate;
use crate::shortage::Shortage;
use flow_link::{Parcel, Patience, Taken};
use flow_table::Partial;
use std::sync::Wait;

/// Takes by turns until each link gave Last. The fault is `NoThread`: a sender was gone before that.
pub fn run_worker<G: Gate, R: Wait>(
    rt: &R,
    gate: &G,
    share: WorkerShare,
) -> Result<WorkerShare, Shortage>
    requires { IsUnused share }
    ensures { IfOk result (WorkerRan share) }
{
    let WorkerShare {
        worker,
        link_ends,
        partial,
    } = share;
    let mut link_ends = link_ends;
    let mut partial = partial;
    let mut patience = patience_for(&link_ends);
    let mut taken = 0;
    for _ in rt.forever() {
        let round = go_round(gate, worker, taken, &mut link_ends, &mut partial);
        if round.gone {
            return Err(Shortage::NoThread);
        }
        if all_ended(&link_ends) {
            return Ok(WorkerShare {
                worker,
                link_ends,
                partial,
            });
        }
        rest(rt, &mut patience, round.taken.saturating_sub(taken));
        taken = round.taken;
    }
    unreachable!()
}

// The links of a worker have the same capacity.
fn patience_for(link_ends: &[LinkEnd]) -> Patience {
    match link_ends.first() {
        Some(link_end) => Patience::new(link_end.receiver.capacity()),
        None => Patience::new(1),
    }
}

// Waits a little after a round that found nothing.
fn rest<R: Wait>(rt: &R, patience: &mut Patience, found: u64) {
    if found > 0 {
        patience.moved(found);
    } else {
        patience.wait(rt);
    }
}

fn all_ended(link_ends: &[LinkEnd]) -> bool
    ensures { IsTrue result → All IsEnded link_ends.now }
{
    for link_end in link_ends {
        if !link_end.last {
            return false;
        }
    }
    true
}

// What a round did: how many parcels were taken by its end, and whether a sender was gone.
#[derive(Clone, Copy)]
struct Round {
    taken: u64,
    gone: bool,
}

// One try at each link that hasn't given Last.
fn go_round<G: Gate>(
    gate: &G,
    worker: usize,
    taken: u64,
    link_ends: &mut Vec<LinkEnd>,
    partial: &mut Partial,
) -> Round
    ensures { RoundsInto link_ends.old.items partial.old link_ends.new.items partial.new }
{
    let mut round = Round { taken, gone: false };
    for place in 0..link_ends.len() {
        try_link_end(gate, worker, &mut round, &mut link_ends[place], partial);
    }
    round
}

// One try at a link, unless it gave Last.
fn try_link_end<G: Gate>(
    gate: &G,
    worker: usize,
    round: &mut Round,
    link_end: &mut LinkEnd,
    partial: &mut Partial,
)
    ensures { TakesInto link_end.old partial.old link_end.new partial.new }
{
    if link_end.last {
        return;
    }
    gate.before_take(worker, round.taken);
    match link_end.receiver.try_recv() {
        Taken::Got(parcel) => {
            link_end.last = absorb(partial, parcel);
            round.taken = round.taken.saturating_add(1);
        }
        Taken::Empty => (),
        Taken::Gone => round.gone = true,
    }
}

// Adds a parcel's record, and says whether the parcel was Last. A partial table that has failed
// takes the record, too.
fn absorb(partial: &mut Partial, parcel: Parcel) -> bool
    ensures last { result ≡ is_last parcel }
    ensures adds { AddsAll partial.old (records_in (parcel ∷ [])) partial.new }
{
    match parcel {
        Parcel::Item(item) => {
            let _ = partial.add(&item);
            false
        }
        Parcel::Last => true,
    }
}
