//! Joining threads.

ghost use Rattle.std.specs.Prelude.{◌≡◌, ◌≤◌, [], None};
ghost use Rattle.std.specs.List.{AllZip};
ghost use Rattle.std.specs.VecDeque.{deque_len, deque_capacity};
ghost use Rattle.flow_collect.specs.Started.{KeepsPromise};

use crate::shortage::Shortage;
use std::collections::VecDeque;
use std::thread::{Promise, PromisedHandle, Threads};

/// Joins threads, in order. The second part is what one of them could not have, if it handed nothing back:
/// `NoThread` before `OutOfMemory`.
pub fn join_all<T: Drop, P: Promise<Result<T, Shortage>>, R: Threads>(
    rt: &R,
    handles: VecDeque<PromisedHandle<Result<T, Shortage>, P>>,
    room: VecDeque<T>,
) -> (VecDeque<T>, Option<Shortage>)
    requires empty { (room.items ≡ []) × (deque_len room ≡ 0) }
    requires room { deque_len handles ≤ deque_capacity room }
    ensures { result.1 ≡ None
        → AllZip (KeepsPromise P.kept_by) handles.items result.0.items }
{
    let mut handles = handles;
    let mut all = room;
    let mut lost = None;
    while let Some(handle) = handles.pop_front() {
        match handle.join(rt) {
            Ok(back) => all.push_back_reserved(back),
            Err(shortage) => lost = Some(first_of(lost, shortage)),
        }
    }
    (all, lost)
}

fn first_of(lost: Option<Shortage>, other: Shortage) -> Shortage {
    match lost {
        Some(Shortage::NoThread) => Shortage::NoThread,
        _ => other,
    }
}
