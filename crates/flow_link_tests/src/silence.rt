use crate::tests::item;
use flow_link::*;
use std::alloc::Global;
use std::sync::Wait;
use std::test::Fail;
use std::thread;
use std::thread::Threads;

/// So many waits in a row take each of the longer and longer sleeps, and then some ninety of the
/// longest: about a tenth of a second.
const SILENT_TRIES: u32 = 110;

fn stay_silent<R: Wait>(rt: &R) {
    let mut patience = Patience::new(1);
    for _ in 0..SILENT_TRIES {
        patience.wait(rt);
    }
}

// Sends two items over a link with room for one, the first of them late or at once.
fn send_two<R: Wait>(rt: &R, alloc: Global, sender: Sender, is_late: bool) -> bool {
    let mut sender = sender;
    if is_late {
        stay_silent(rt);
    }
    for number in 1..3 {
        if sender.ended() || sender.send(rt, item(alloc, number)).is_err() {
            return false;
        }
    }
    true
}

// Takes two items, the first of them late or at once.
fn receive_two<R: Wait>(rt: &R, receiver: Receiver, is_late: bool) -> bool {
    let mut receiver = receiver;
    if is_late {
        stay_silent(rt);
    }
    for number in 1..3 {
        if !matches!(receiver.recv(rt), Some(Parcel::Item(record)) if record.domain == number) {
            return false;
        }
    }
    true
}

fn pass_two<R: Threads + Wait + Sync>(
    rt: &R,
    alloc: Global,
    is_sender_late: bool,
) -> Result<(bool, bool), LinkFault> {
    let (sender, receiver) = link(alloc, 1)?;
    Ok(thread::join(
        rt,
        move || send_two(rt, alloc, sender, is_sender_late),
        move || receive_two(rt, receiver, !is_sender_late),
    ))
}

// A receiver waits for a sender that is silent for long, and then has its items.
#[test]
fn waits_for_a_silent_sender(rt: HostRuntime) -> Result<(), Fail> {
    assert!(rt; matches!(pass_two(&rt, rt.alloc(), true)?, (true, true)));
    Ok(())
}

// A sender waits for a receiver that is silent for long, and then has room.
#[test]
fn waits_for_a_silent_receiver(rt: HostRuntime) -> Result<(), Fail> {
    assert!(rt; matches!(pass_two(&rt, rt.alloc(), false)?, (true, true)));
    Ok(())
}
