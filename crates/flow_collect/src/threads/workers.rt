//! Starting the threads of the workers.

ghost use Rattle.std.specs.Prelude.{◌≡◌, ◌≤◌, [], All, IsTrue, IfOk};
ghost use Rattle.std.specs.List.{AllZip};
ghost use Rattle.std.specs.VecDeque.{deque_len, deque_capacity};
ghost use Rattle.flow_collect.specs.LinkEnds.{WorkerRan, IsUnused};
ghost use Rattle.flow_collect.specs.Started.{IsGivenTo, share_of};

use crate::gate::Gate;
use crate::shortage::Shortage;
use crate::worker::{WorkerShare, run_worker};
use std::collections::VecDeque;
use std::snapshot::Snapshot;
use std::sync::Wait;
use std::thread::{Promise, PromisedHandle, Scope, Threads};

/// What a worker's thread promises: it works on what it was given.
#[derive(Drop)]
pub struct WorkerOf {
    pub share: Snapshot<WorkerShare>,
}

impl Promise<Result<WorkerShare, Shortage>> for WorkerOf {
    ghost kept_by = { λ p r. IfOk r (WorkerRan p.share.value) };
}

/// Starts a thread for each worker. The second part says whether all could be started: if one
/// couldn't, its ends are dropped, and those after it.
pub fn start_workers<'s, 'e, G: Gate + Sync, R: Threads + Wait + Sync>(
    scope: &'s Scope<'s, &'e ()>,
    rt: &'s R,
    gate: &'s G,
    shares: VecDeque<WorkerShare>,
    room: VecDeque<PromisedHandle<Result<WorkerShare, Shortage>, WorkerOf>>,
) -> (
    VecDeque<PromisedHandle<Result<WorkerShare, Shortage>, WorkerOf>>,
    bool,
)
    requires unused { All IsUnused shares.items }
    requires empty { (room.items ≡ []) × (deque_len room ≡ 0) }
    requires room { deque_len shares ≤ deque_capacity room }
    ensures count { deque_len result.0 ≤ deque_len shares }
    ensures started { IsTrue result.1
        → AllZip (IsGivenTo share_of) shares.items result.0.items }
{
    let mut shares = shares;
    let mut handles = room;
    while let Some(share) = shares.pop_front() {
        let promise = WorkerOf {
            share: Snapshot::of(&share),
        };
        let run = move || run_worker(rt, gate, share);
        match scope.spawn_with(promise, run) {
            Ok(handle) => handles.push_back_reserved(handle),
            Err(_) => return (handles, false),
        }
    }
    (handles, true)
}
