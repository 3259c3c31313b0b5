//! What is collected on one thread and in threads.

use super::texts::*;
use flow_collect::{CollectFault, OpenGate, Pool, collect, collect_serial};
use ipfix_session::{FromReader, ScriptSource, Source};
use std::alloc::Global;
use std::io::{self, Read};
use std::sync::Wait;
use std::sync::atomic::{AtomicU64, Ordering};
use std::test::*;
use std::thread::Threads;
use worked_examples::faults::VERSION_9;
use worked_examples::flows::*;

// How many octets a source still gives, in nine reads of 16 octets.
fn left_in(source: &mut ScriptSource) -> usize {
    let mut buffer = [0; 16];
    let mut count = 0usize;
    for _ in 0..9 {
        count = count.saturating_add(source.read(&mut buffer).unwrap_or(0));
    }
    count
}

// The rows and the reports of what one thread collects of these texts, and how many octets are left in
// each; or the name of the fault.
fn serial(alloc: Global, texts: &[&[&[u8]]]) -> Result<String, Fail> {
    let sources = sources_of(alloc, texts)?;
    let mut run = match collect_serial(alloc, sources, &by_source(alloc)?) {
        Ok(run) => run,
        Err(fault) => return Ok(String::from_str(alloc, fault.name())?),
    };
    let mut text = lines_of(alloc, &run.table)?;
    text.push_str(&reports_of(alloc, &run.sessions)?)?;
    for source in run.sources.iter_mut() {
        let left = left_in(source);
        text.push_str(&format!(in alloc; "{left};")?)?;
    }
    Ok(text)
}

/// A text without messages.
const NOTHING: &[&[u8]] = &[];

// A session that is refused leaves its source as it is: here 68 octets of it.
#[test]
fn one_thread_collects(rt: HostRuntime) -> Result<(), Fail> {
    let cases: [(&[&[&[u8]]], &str); 7] = [
        (
            &[&[FIVE_FLOWS], &[FIVE_FLOWS]],
            "0:192.0.2.1=30,10;1,5,0;1,5,0;0;0;",
        ),
        (
            &[&[ONE_FLOW], &[ONE_FLOW, CUT_FLOW]],
            "0:192.0.2.1=3000,2;1,1,0;1,1,14;0;0;",
        ),
        (&[&[VERSION_9, ONE_FLOW], &[]], "0,0,1;0,0,0;68;0;"),
        (
            &[&[LARGEST_FLOW], &[ONE_OCTET_FLOW_LATER]],
            "0:192.0.2.1=18446744073709551615,1;1:192.0.2.1=1,1;1,1,0;1,1,0;0;0;",
        ),
        (&[&[LARGEST_FLOW], &[ONE_OCTET_FLOW]], "SumTooLarge"),
        (&[], "Sessions"),
        (&[NOTHING; 65], "Sessions"),
    ];
    for (texts, want) in cases {
        assert_eq!(rt; serial(rt.alloc(), texts)?.as_str(), want);
    }
    Ok(())
}

// The rows of so many sessions of five flows each, how many reports there are, and how many have a fault.
fn fives<R: Threads + Wait + Sync>(
    rt: &R,
    alloc: Global,
    sessions: usize,
    workers: usize,
    capacity: usize,
) -> Result<String, Fail> {
    let mut sources = Vec::new(alloc);
    for _ in 0..sessions {
        sources.push(FromReader::new(FIVE_FLOWS))?;
    }
    let pool = Pool { workers, capacity };
    let run = collect(rt, alloc, sources, &by_source(alloc)?, pool, &OpenGate)?;
    let mut text = lines_of(alloc, &run.table)?;
    let faults = count_faults(&run.sessions);
    text.push_str(&format!(in alloc; "{},{faults}", run.sessions.len())?)?;
    Ok(text)
}

#[test]
fn any_capacity_and_any_workers_give_one_table(rt: HostRuntime) -> Result<(), Fail> {
    for capacity in [1, 2, 5, 6, 65_536] {
        for workers in [1, 2, 16] {
            let text = fives(&rt, rt.alloc(), 2, workers, capacity)?;
            assert_eq!(rt; text.as_str(), "0:192.0.2.1=30,10;2,0");
        }
    }
    Ok(())
}

#[test]
fn most_sessions_give_one_table(rt: HostRuntime) -> Result<(), Fail> {
    for (workers, capacity) in [(16, 1), (3, 6)] {
        let text = fives(&rt, rt.alloc(), 64, workers, capacity)?;
        assert_eq!(rt; text.as_str(), "0:192.0.2.1=960,320;64,0");
    }
    Ok(())
}

// The number of the fault of collecting these texts with one worker, over links with room for a parcel.
fn fault_of<R: Threads + Wait + Sync>(
    rt: &R,
    alloc: Global,
    texts: &[&[&[u8]]],
) -> Result<Option<u8>, Fail> {
    let sources = sources_of(alloc, texts)?;
    let pool = Pool {
        workers: 1,
        capacity: 1,
    };
    let run = collect(rt, alloc, sources, &by_source(alloc)?, pool, &OpenGate);
    Ok(run.err().map(|fault| fault.number()))
}

// A worker whose table has failed goes on taking, so that no session is stuck at a full link.
#[test]
fn takes_records_after_a_sum_too_large(rt: HostRuntime) -> Result<(), Fail> {
    let fault = fault_of(&rt, rt.alloc(), &[&[LARGEST_FLOW], &[ONE_OCTET_FLOW; 10]])?;
    assert_eq!(rt; fault, Some(6));
    Ok(())
}

/// An empty reader that counts its reads.
#[derive(Drop)]
struct Counting<'a> {
    reads: &'a AtomicU64,
}

impl<'a> Read for Counting<'a> {
    fn read(&mut self, _buffer: &mut [u8]) -> io::Result<usize> {
        self.reads.fetch_add(1, Ordering::SeqCst);
        Ok(0)
    }
}

// The fault of these arguments, with so many sources that count their reads.
fn fault_of_arguments<R: Threads + Wait + Sync>(
    rt: &R,
    alloc: Global,
    reads: &AtomicU64,
    (workers, sessions, capacity): (usize, usize, usize),
) -> Result<Option<CollectFault>, Fail> {
    let mut sources = Vec::new(alloc);
    for _ in 0..sessions {
        sources.push(FromReader::new(Counting { reads }))?;
    }
    let pool = Pool { workers, capacity };
    let plan = by_source(alloc)?;
    Ok(collect(rt, alloc, sources, &plan, pool, &OpenGate).err())
}

#[test]
fn refuses_arguments_before_it_reads(rt: HostRuntime) -> Result<(), Fail> {
    let reads = AtomicU64::new(0);
    for (arguments, fault, count) in [
        ((0, 0, 0), Some(CollectFault::Workers), 0),
        ((17, 1, 1), Some(CollectFault::Workers), 0),
        ((16, 65, 0), Some(CollectFault::Sessions), 0),
        ((1, 0, 1), Some(CollectFault::Sessions), 0),
        ((1, 1, 0), Some(CollectFault::Link), 0),
        ((1, 1, 65_537), Some(CollectFault::Link), 0),
        ((16, 64, 1), None, 64),
    ] {
        let found = fault_of_arguments(&rt, rt.alloc(), &reads, arguments)?;
        assert_eq!(rt; found, fault);
        assert_eq!(rt; reads.load(Ordering::SeqCst), count);
    }
    Ok(())
}
