//! Starting the threads of the sessions.

ghost use Rattle.std.specs.Prelude.{◌≡◌, ◌≤◌, [], All, IsTrue, IfOk};
ghost use Rattle.std.specs.List.{AllZip};
ghost use Rattle.std.specs.VecDeque.{deque_len, deque_capacity};
ghost use Rattle.flow_collect.specs.Sessions.{SessionRan};
ghost use Rattle.flow_collect.specs.Started.{IsGivenTo, start_of};

use crate::gate::Gate;
use crate::session_thread::{EndedSession, Start, run_session};
use crate::shortage::Shortage;
use ipfix_session::Source;
use std::alloc::Global;
use std::collections::VecDeque;
use std::snapshot::Snapshot;
use std::sync::Wait;
use std::thread::{Promise, PromisedHandle, Scope, Threads};

/// What a session's thread promises: it runs what it was given.
#[derive(Drop)]
pub struct SessionOf<'a, S> {
    pub start: Snapshot<Start<'a, S>>,
}

impl<'a, S: Source> Promise<Result<EndedSession<S>, Shortage>> for SessionOf<'a, S> {
    ghost kept_by = { λ p r. IfOk r (SessionRan S.seen p.start.value) };
}

/// Starts a thread for each session. The second part says whether all could be started: if one
/// couldn't, its end is dropped, and those after it.
pub fn start_sessions<
    's,
    'e,
    'f: 's,
    S: Source + Send + Drop + 's,
    G: Gate + Sync,
    R: Threads + Wait + Sync,
>(
    scope: &'s Scope<'s, &'e ()>,
    rt: &'s R,
    alloc: Global,
    gate: &'s G,
    starts: VecDeque<Start<'f, S>>,
    room: VecDeque<PromisedHandle<Result<EndedSession<S>, Shortage>, SessionOf<'f, S>>>,
) -> (
    VecDeque<PromisedHandle<Result<EndedSession<S>, Shortage>, SessionOf<'f, S>>>,
    bool,
)
    requires unused { All (λ start. start.sender.sent ≡ []) starts.items }
    requires empty { (room.items ≡ []) × (deque_len room ≡ 0) }
    requires room { deque_len starts ≤ deque_capacity room }
    ensures count { deque_len result.0 ≤ deque_len starts.entry }
    ensures started { IsTrue result.1
        → AllZip (IsGivenTo start_of) starts.entry.items result.0.items }
{
    let mut starts = starts;
    let mut handles = room;
    while let Some(start) = starts.pop_front() {
        let promise = SessionOf {
            start: Snapshot::of(&start),
        };
        let run = move || run_session(rt, alloc, gate, start);
        match scope.spawn_with(promise, run) {
            Ok(handle) => handles.push_back_reserved(handle),
            Err(_) => return (handles, false),
        }
    }
    (handles, true)
}
