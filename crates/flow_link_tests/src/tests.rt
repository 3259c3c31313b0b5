use flow_link::*;
use ipfix_message::{DataRecord, Fields};
use std::alloc::Global;
use std::sync::Wait;
use std::test::Fail;
use std::thread;
use std::thread::Threads;

/// So often a try is made again before a test gives up.
const TRIES: u32 = 1_000_000;

/// An item that its number tells from the others. It takes no memory.
pub(crate) fn item(alloc: Global, number: u32) -> Parcel {
    Parcel::Item(DataRecord {
        domain: number,
        export_time: 1_700_000_000,
        template: 256,
        scope: 0,
        fields: Fields::new(alloc),
    })
}

#[test]
fn one_thread_moves_parcels_by_hand(rt: HostRuntime) -> Result<(), Fail> {
    let (mut sender, mut receiver) = link(rt.alloc(), 1)?;
    assert!(rt; matches!(receiver.try_recv(), Taken::Empty));
    assert!(rt; sender.try_send(item(rt.alloc(), 1)).is_ok());
    assert!(rt; !sender.ended());
    let back = sender.try_send(item(rt.alloc(), 2));
    assert!(rt; matches!(&back, Err(Parcel::Item(record)) if record.domain == 2));
    assert!(rt;
        matches!(receiver.try_recv(), Taken::Got(Parcel::Item(record)) if record.domain == 1)
    );
    assert!(rt; !sender.ended());
    assert!(rt; sender.try_send(item(rt.alloc(), 2)).is_ok());
    let Ok(settled) = settle(rt.alloc(), sender, receiver) else {
        panic!(rt; "out of memory");
    };
    assert!(rt; matches!(settled.left.as_slice(), [Parcel::Item(record)] if record.domain == 2));
    Ok(())
}

#[test]
fn capacities_have_limits(rt: HostRuntime) {
    for capacity in [0, 65_537] {
        assert!(rt; matches!(link(rt.alloc(), capacity), Err(LinkFault::Capacity)));
    }
    for capacity in [1, 65_536] {
        assert!(rt; link(rt.alloc(), capacity).is_ok());
    }
}

#[test]
fn each_end_notices_that_the_other_is_gone(rt: HostRuntime) -> Result<(), Fail> {
    let (mut sender, receiver) = link(rt.alloc(), 2)?;
    drop(receiver);
    let back = sender.send(&rt, item(rt.alloc(), 1));
    assert!(rt; matches!(&back, Err(Parcel::Item(record)) if record.domain == 1));
    let (mut sender, mut receiver) = link(rt.alloc(), 2)?;
    assert!(rt; sender.try_send(Parcel::Last).is_ok());
    assert!(rt; sender.ended());
    drop(sender);
    assert!(rt; matches!(receiver.recv(&rt), Some(Parcel::Last)));
    assert!(rt; matches!(receiver.try_recv(), Taken::Gone));
    assert!(rt; receiver.recv(&rt).is_none());
    Ok(())
}

// If memory for what is left was refused, a second call gives it. `tests/gate/refusals` refuses
// each allocation in turn.
#[test]
fn settle_with_refused_memory(rt: HostRuntime) {
    let (mut sender, mut receiver) = match link(rt.alloc(), 4) {
        Ok(ends) => ends,
        Err(fault) => {
            assert!(rt; matches!(fault, LinkFault::OutOfMemory));
            let _ = eprintln!(rt; "link: OutOfMemory");
            return;
        }
    };
    for number in 1..4 {
        assert!(rt; !sender.ended());
        assert!(rt; sender.try_send(item(rt.alloc(), number)).is_ok());
    }
    assert!(rt;
        matches!(receiver.try_recv(), Taken::Got(Parcel::Item(record)) if record.domain == 1)
    );
    let settled = match settle(rt.alloc(), sender, receiver) {
        Ok(settled) => {
            let _ = eprintln!(rt; "settle: right");
            settled
        }
        Err(SettleFault::OutOfMemory(sender, receiver)) => {
            let _ = eprintln!(rt; "settle: OutOfMemory");
            let Ok(settled) = settle(rt.alloc(), sender, receiver) else {
                let _ = eprintln!(rt; "settle: OutOfMemory");
                return;
            };
            let _ = eprintln!(rt; "settle: right");
            settled
        }
    };
    assert!(rt;
        matches!(settled.left.as_slice(), [Parcel::Item(a), Parcel::Item(b)] if a.domain == 2 && b.domain == 3)
    );
}

// Tries to send until there is room. It gives up in the end.
fn send_soon(sender: &mut Sender, parcel: Parcel) -> bool {
    let mut parcel = parcel;
    for _ in 0..TRIES {
        if sender.ended() {
            return false;
        }
        match sender.try_send(parcel) {
            Ok(()) => return true,
            Err(back) => parcel = back,
        }
        thread::yield_now();
    }
    false
}

// Tries to take until a parcel is there. It gives up in the end.
fn receive_soon(receiver: &mut Receiver) -> Option<Parcel> {
    for _ in 0..TRIES {
        match receiver.try_recv() {
            Taken::Got(parcel) => return Some(parcel),
            Taken::Empty => thread::yield_now(),
            Taken::Gone => return None,
        }
    }
    None
}

// Whether the items below `count` and then Last went out.
fn send_all(alloc: Global, sender: Sender, count: u32) -> bool {
    let mut sender = sender;
    for number in 0..count {
        if !send_soon(&mut sender, item(alloc, number)) {
            return false;
        }
    }
    send_soon(&mut sender, Parcel::Last)
}

// Whether the items below `count` and then Last came, in this order.
fn receive_all(receiver: Receiver, count: u32) -> bool {
    let mut receiver = receiver;
    for expected in 0..count {
        match receive_soon(&mut receiver) {
            Some(Parcel::Item(record)) if record.domain == expected => {}
            _ => return false,
        }
    }
    matches!(receive_soon(&mut receiver), Some(Parcel::Last))
}

// As `send_all`, by the call that waits.
fn send_waiting<R: Wait>(rt: &R, alloc: Global, sender: Sender, count: u32) -> bool {
    let mut sender = sender;
    for number in 0..count {
        if sender.ended() || sender.send(rt, item(alloc, number)).is_err() {
            return false;
        }
    }
    !sender.ended() && sender.send(rt, Parcel::Last).is_ok()
}

// As `receive_all`, by the call that waits.
fn receive_waiting<R: Wait>(rt: &R, receiver: Receiver, count: u32) -> bool {
    let mut receiver = receiver;
    for expected in 0..count {
        match receiver.recv(rt) {
            Some(Parcel::Item(record)) if record.domain == expected => {}
            _ => return false,
        }
    }
    matches!(receiver.recv(rt), Some(Parcel::Last))
}

// Whether all was sent, and whether it came, by the calls that wait or by those that don't.
fn passes<R: Threads + Wait + Sync>(
    rt: &R,
    alloc: Global,
    capacity: usize,
    waits: bool,
) -> Result<(bool, bool), LinkFault> {
    const COUNT: u32 = 100_000;
    let (sender, receiver) = link(alloc, capacity)?;
    Ok(thread::join(
        rt,
        move || {
            if waits {
                send_waiting(rt, alloc, sender, COUNT)
            } else {
                send_all(alloc, sender, COUNT)
            }
        },
        move || {
            if waits {
                receive_waiting(rt, receiver, COUNT)
            } else {
                receive_all(receiver, COUNT)
            }
        },
    ))
}

#[test]
fn parcels_cross_between_two_threads(rt: HostRuntime) -> Result<(), Fail> {
    for (capacity, waits) in [
        (1, false),
        (2, false),
        (3, false),
        (64, false),
        (1, true),
        (64, true),
    ] {
        let (sent, received) = passes(&rt, rt.alloc(), capacity, waits)?;
        assert!(rt; sent && received, "at {capacity}");
    }
    Ok(())
}
