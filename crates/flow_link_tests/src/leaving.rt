use flow_link::*;
use std::alloc::{AllocError, Global};
use std::sync::Wait;
use std::test::Fail;
use std::thread;
use std::thread::Threads;

/// So many links are used side by side, each by two threads: by more than most machines have
/// processors, so that a thread may be held up at any step.
const SIDE_BY_SIDE: usize = 12;

/// So many links are used one after the other.
const ROUNDS: u32 = 400;

// Sends Last, and leaves at once.
fn send_last(sender: Sender) -> bool {
    let mut sender = sender;
    !sender.ended() && sender.try_send(Parcel::Last).is_ok()
}

// What a thousand looks found, if anything.
fn look(receiver: &mut Receiver) -> Option<Taken> {
    for _ in 0..1000 {
        let taken = receiver.try_recv();
        if !matches!(taken, Taken::Empty) {
            return Some(taken);
        }
    }
    None
}

// Whether Last came before the sender was found to be gone. It looks again and again, and seldom
// gives way, so that it is mostly in the middle of a look when the sender leaves.
fn last_came<R: Wait>(rt: &R, receiver: Receiver) -> bool {
    let mut receiver = receiver;
    for _ in rt.forever() {
        if let Some(taken) = look(&mut receiver) {
            return matches!(taken, Taken::Got(Parcel::Last));
        }
        thread::yield_now();
    }
    unreachable!()
}

// Whether Last came over each of many links whose sender left right after it.
fn last_always_comes<R: Threads + Wait + Sync>(rt: &R, alloc: Global) -> bool {
    for _ in 0..ROUNDS {
        let Ok((sender, receiver)) = link(alloc, 1) else {
            return false;
        };
        let ends = thread::join(
            rt,
            move || send_last(sender),
            move || last_came(rt, receiver),
        );
        if !matches!(ends, (true, true)) {
            return false;
        }
    }
    true
}

fn all_come<R: Threads + Wait + Sync>(rt: &R, alloc: Global) -> Result<bool, AllocError> {
    let came = thread::map_indices(rt, alloc, SIDE_BY_SIDE, &|_| last_always_comes(rt, alloc))?;
    Ok(came.iter().all(|&all| all))
}

#[test]
fn last_comes_from_a_sender_that_leaves(rt: HostRuntime) -> Result<(), Fail> {
    assert!(rt; all_come(&rt, rt.alloc())?);
    Ok(())
}
