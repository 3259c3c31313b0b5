//! Sessions and workers in threads of their own, seen through a gate.

use super::gates::{collected, wait_for};
use super::texts::*;
use flow_collect::Gate;
use std::alloc::Global;
use std::sync::atomic::{AtomicU64, Ordering};
use std::test::*;
use worked_examples::flows::*;

/// Holds each of the first calls of two sessions and two workers until all four have come.
#[derive(Drop)]
struct Meeting {
    came: AtomicU64,
    missed: AtomicU64,
}

impl Meeting {
    fn meet(&self, before: u64) {
        if before != 0 || self.came.load(Ordering::SeqCst) >= 4 {
            return;
        }
        self.came.fetch_add(1, Ordering::SeqCst);
        if !wait_for(&self.came, 4) {
            self.missed.store(1, Ordering::SeqCst);
        }
    }
}

impl Gate for Meeting {
    fn before_take(&self, _worker: usize, taken: u64) {
        self.meet(taken);
    }

    fn before_send(&self, _session: usize, sent: u64) {
        self.meet(sent);
    }
}

// Each session and each worker has a thread of its own: before one of the two sessions sends its first
// parcel and one of the two workers takes its first, all four have come so far.
#[test]
fn all_threads_run_at_once(rt: HostRuntime) -> Result<(), Fail> {
    let alloc: Global = rt.alloc();
    let sources = sources_of(alloc, &[&[FIVE_FLOWS], &[FIVE_FLOWS]])?;
    let gate = Meeting {
        came: AtomicU64::new(0),
        missed: AtomicU64::new(0),
    };
    let text = collected(&rt, alloc, sources, (2, 1), &gate)?;
    assert_eq!(rt; text.as_str(), "0:192.0.2.1=30,10;0");
    assert_eq!(rt; gate.missed.load(Ordering::SeqCst), 0);
    Ok(())
}
