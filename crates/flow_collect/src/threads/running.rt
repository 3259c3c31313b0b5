//! All threads of a run, in one scope.

ghost use Rattle.std.specs.Prelude.{◌≡◌, ◌≤◌, [], All, IfOk};
ghost use Rattle.std.specs.List.{AllZip};
ghost use Rattle.std.specs.VecDeque.{deque_len, deque_capacity};
ghost use Rattle.flow_collect.specs.LinkEnds.{WorkerRan, IsUnused};
ghost use Rattle.flow_collect.specs.Sessions.{SessionRan};

use super::joining::join_all;
use super::sessions::start_sessions;
use super::workers::start_workers;
use crate::gate::Gate;
use crate::session_thread::{EndedSession, Start};
use crate::shortage::Shortage;
use crate::worker::WorkerShare;
use ipfix_session::Source;
use std::alloc::{AllocError, Global};
use std::collections::VecDeque;
use std::sync::Wait;
use std::thread;
use std::thread::{Scope, Threads};

/// Runs each session and each worker in a thread of its own, and joins them all.
pub fn in_threads<'f, S: Source + Send + Drop, G: Gate + Sync, R: Threads + Wait + Sync>(
    rt: &R,
    alloc: Global,
    gate: &G,
    starts: VecDeque<Start<'f, S>>,
    shares: VecDeque<WorkerShare>,
) -> Result<(VecDeque<EndedSession<S>>, VecDeque<WorkerShare>), Shortage>
    requires unused { All (λ start. start.sender.sent ≡ []) starts.items }
    requires shares { All IsUnused shares.items }
    ensures sessions { IfOk result (λ r. AllZip (SessionRan S.seen) starts.entry.items r.0.items) }
    ensures workers { IfOk result (λ r. AllZip WorkerRan shares.items r.1.items) }
{
    thread::scope(
        thread::scope_env(),
        rt,
        |scope| -> Result<(VecDeque<EndedSession<S>>, VecDeque<WorkerShare>), Shortage>
            requires unused { All (λ start. start.sender.sent ≡ []) starts.items }
            requires shares { All IsUnused shares.items }
            ensures sessions { IfOk result
                (λ r. AllZip (SessionRan S.seen) starts.entry.items r.0.items) }
            ensures workers { IfOk result (λ r. AllZip WorkerRan shares.items r.1.items) }
        { run_all(scope, rt, alloc, gate, starts, shares) },
    )
}

// The workers start first. If a thread can't be started, the ends that are left are dropped, so
// that those which run end by themselves.
fn run_all<'s, 'e, 'f: 's, S: Source + Send + Drop + 's, G: Gate + Sync, R: Threads + Wait + Sync>(
    scope: &'s Scope<'s, &'e ()>,
    rt: &'s R,
    alloc: Global,
    gate: &'s G,
    starts: VecDeque<Start<'f, S>>,
    shares: VecDeque<WorkerShare>,
) -> Result<(VecDeque<EndedSession<S>>, VecDeque<WorkerShare>), Shortage>
    requires unused { All (λ start. start.sender.sent ≡ []) starts.items }
    requires shares { All IsUnused shares.items }
    ensures sessions { IfOk result (λ r. AllZip (SessionRan S.seen) starts.entry.items r.0.items) }
    ensures workers { IfOk result (λ r. AllZip WorkerRan shares.items r.1.items) }
{
    let for_workers = room(alloc, shares.len())?;
    let for_worked = room(alloc, shares.len())?;
    let for_sessions = room(alloc, starts.len())?;
    let for_ended = room(alloc, starts.len())?;
    let (workers, all_work) = start_workers(scope, rt, gate, shares, for_workers);
    if !all_work {
        drop(starts);
        join_all(rt, workers, for_worked);
        return Err(Shortage::NoThread);
    }
    let (sessions, all_run) = start_sessions(scope, rt, alloc, gate, starts, for_sessions);
    let (ended, unsent) = join_all(rt, sessions, for_ended);
    let (worked, untaken) = join_all(rt, workers, for_worked);
    if !all_run {
        return Err(Shortage::NoThread);
    }
    if let Some(shortage) = untaken {
        return Err(shortage);
    }
    if let Some(shortage) = unsent {
        return Err(shortage);
    }
    Ok((ended, worked))
}

fn room<T>(alloc: Global, count: usize) -> Result<VecDeque<T>, AllocError>
    ensures { IfOk result (λ q. (q.items ≡ []) × (deque_len q ≡ 0) × (count ≤ deque_capacity q)) }
{
    VecDeque::with_capacity(alloc, count)
}
