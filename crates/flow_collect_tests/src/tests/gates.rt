//! What threads do at the same time, seen through gates.

use super::texts::*;
use flow_collect::{Gate, Pool, collect};
use ipfix_session::{FromReader, Source};
use std::alloc::Global;
use std::io::{self, ErrorKind, Read};
use std::sync::Wait;
use std::sync::atomic::{AtomicU64, Ordering};
use std::test::*;
use std::thread;
use std::thread::Threads;
use worked_examples::flows::*;
use worked_examples::text_of;

/// A wait gives up after so many turns.
const TURNS: u32 = 1_000_000;

/// Waits until the number is at least so large. False if that didn't come.
pub fn wait_for(number: &AtomicU64, least: u64) -> bool {
    for _ in 0..TURNS {
        if number.load(Ordering::SeqCst) >= least {
            return true;
        }
        thread::yield_now();
    }
    false
}

/// The rows of what was collected by source address, with so many workers and room for so many parcels
/// in a link, and how many sessions had a fault.
pub fn collected<S: Source + Send + Drop, G: Gate + Sync, R: Threads + Wait + Sync>(
    rt: &R,
    alloc: Global,
    sources: Vec<S>,
    (workers, capacity): (usize, usize),
    gate: &G,
) -> Result<String, Fail> {
    let pool = Pool { workers, capacity };
    let run = collect(rt, alloc, sources, &by_source(alloc)?, pool, gate)?;
    let mut text = lines_of(alloc, &run.table)?;
    let faults = count_faults(&run.sessions);
    text.push_str(&format!(in alloc; "{faults}")?)?;
    Ok(text)
}

/// Holds the worker at its first take until the session has come to its third parcel, and some time
/// longer.
#[derive(Drop)]
struct Holding {
    sent: AtomicU64,
    sent_when_let_go: AtomicU64,
}

impl Gate for Holding {
    fn before_take(&self, _worker: usize, taken: u64) {
        if taken != 0 || self.sent_when_let_go.load(Ordering::SeqCst) != 0 {
            return;
        }
        wait_for(&self.sent, 2);
        for _ in 0..100_000 {
            thread::yield_now();
        }
        let sent = self.sent.load(Ordering::SeqCst);
        self.sent_when_let_go.store(sent, Ordering::SeqCst);
    }

    fn before_send(&self, _session: usize, sent: u64) {
        self.sent.store(sent, Ordering::SeqCst);
    }
}

// A full link holds its session back: with room for two parcels the third isn't sent before one is
// taken. The gate is called before each of the ten records and Last.
#[test]
fn full_link_holds_its_session_back(rt: HostRuntime) -> Result<(), Fail> {
    let alloc: Global = rt.alloc();
    let sources = sources_of(alloc, &[&[FIVE_FLOWS, FIVE_FLOWS]])?;
    let gate = Holding {
        sent: AtomicU64::new(0),
        sent_when_let_go: AtomicU64::new(0),
    };
    let text = collected(&rt, alloc, sources, (1, 2), &gate)?;
    assert_eq!(rt; text.as_str(), "0:192.0.2.1=30,10;0");
    let sent = gate.sent.load(Ordering::SeqCst);
    let held = gate.sent_when_let_go.load(Ordering::SeqCst);
    assert_eq!(rt; (held, sent), (2, 10));
    Ok(())
}

/// Notes how many parcels each worker had taken at its last call.
#[derive(Drop)]
struct Noting {
    taken: [AtomicU64; 2],
}

impl Noting {
    // Waits until both workers took a parcel. False if they didn't.
    fn both_took(&self) -> bool {
        wait_for(&self.taken[0], 1) && wait_for(&self.taken[1], 1)
    }
}

impl Gate for Noting {
    fn before_take(&self, worker: usize, taken: u64) {
        if worker < 2 {
            self.taken[worker].store(taken, Ordering::SeqCst);
        }
    }

    fn before_send(&self, _session: usize, _sent: u64) {}
}

/// The first 68 octets of a text in one read, which is one flow. Its next read waits until both workers
/// took a parcel, and fails if they don't.
#[derive(Drop)]
struct WaitingReader<'a> {
    text: &'a [u8],
    at: usize,
    gate: &'a Noting,
}

impl<'a> Read for WaitingReader<'a> {
    fn read(&mut self, buffer: &mut [u8]) -> io::Result<usize> {
        let rest = self.text.get(self.at..).unwrap_or(&[]);
        let mut most = rest.len();
        if self.at == 0 {
            most = most.min(68);
        } else if !self.gate.both_took() {
            return Err(io::Error::from(ErrorKind::TimedOut));
        }
        let count = most.min(buffer.len());
        buffer[..count].copy_from_slice(&rest[..count]);
        self.at = self.at.saturating_add(count);
        Ok(count)
    }
}

// Two sessions of two flows and a third one of one flow, each of which reads on only once records of
// the first two were taken.
fn waiting<'a>(
    alloc: Global,
    two_flows: &'a [u8],
    gate: &'a Noting,
) -> Result<Vec<FromReader<WaitingReader<'a>>>, Fail> {
    let mut sources = Vec::new(alloc);
    for text in [two_flows, two_flows, ONE_FLOW] {
        sources.push(FromReader::new(WaitingReader { text, at: 0, gate }))?;
    }
    Ok(sources)
}

// All threads run at once: the sessions decode while both workers collect, to which they go by turns. The
// first and the third, of five parcels with both Lasts, go to the first worker, and the second, of three,
// to the other. The last call of a worker comes before it takes its last parcel.
#[test]
fn sessions_decode_while_workers_collect_by_turns(rt: HostRuntime) -> Result<(), Fail> {
    let alloc: Global = rt.alloc();
    let two_flows = text_of(alloc, &[ONE_FLOW, NEXT_FLOW])?;
    let gate = Noting {
        taken: [AtomicU64::new(0), AtomicU64::new(0)],
    };
    let sources = waiting(alloc, two_flows.as_slice(), &gate)?;
    let text = collected(&rt, alloc, sources, (2, 64), &gate)?;
    assert_eq!(rt; text.as_str(), "0:192.0.2.1=7500,5;0");
    let first = gate.taken[0].load(Ordering::SeqCst);
    let other = gate.taken[1].load(Ordering::SeqCst);
    assert_eq!(rt; (first, other), (4, 2));
    Ok(())
}

// The first and the third session, of two records each, go to the first worker, and the second, whose
// last message is cut short, to the other.
#[test]
fn sessions_go_to_workers_by_turns(rt: HostRuntime) -> Result<(), Fail> {
    let alloc: Global = rt.alloc();
    let whole: &[&[u8]] = &[ONE_FLOW, NEXT_FLOW];
    let sources = sources_of(alloc, &[whole, &[ONE_FLOW, CUT_FLOW], whole])?;
    let gate = Noting {
        taken: [AtomicU64::new(0), AtomicU64::new(0)],
    };
    let text = collected(&rt, alloc, sources, (2, 64), &gate)?;
    assert_eq!(rt; text.as_str(), "0:192.0.2.1=7500,5;1");
    let first = gate.taken[0].load(Ordering::SeqCst);
    let other = gate.taken[1].load(Ordering::SeqCst);
    assert_eq!(rt; (first, other), (5, 1));
    Ok(())
}
