//! What is answered where memory runs out, on one thread and in threads: `tests/gate/refusals`
//! refuses each allocation of these calls in turn.

use super::texts::by_source;
use flow_collect::{OpenGate, Pool, collect, collect_serial};
use flow_table::Table;
use ipfix_session::{FromReader, SessionReport};
use std::alloc::{AllocError, Global};
use std::sync::Wait;
use std::test::*;
use std::thread::Threads;
use worked_examples::flows::FIVE_FLOWS;

/// The number of a session's fault where memory ran out in it.
const OUT_OF_MEMORY: u8 = 12;

// Two sources of five flows each.
fn two_sources(alloc: Global) -> Result<Vec<FromReader<&'static [u8]>>, AllocError> {
    let mut sources = Vec::new(alloc);
    for _ in 0..2 {
        sources.push(FromReader::new(FIVE_FLOWS))?;
    }
    Ok(sources)
}

// How many sessions are whole. `None` if one is neither whole nor ended by want of memory, with nothing
// of its message.
fn count_whole(sessions: &[SessionReport]) -> Option<u64> {
    let mut whole = 0u64;
    for report in sessions {
        let fault = report.fault.map(|fault| fault.number());
        match (report.messages, report.delivered, fault) {
            (1, 5, None) => whole = whole.saturating_add(1),
            (0, 0, Some(OUT_OF_MEMORY)) => {}
            _ => return None,
        }
    }
    Some(whole)
}

// The octets and flows of the one row of a table, or of no rows.
fn totals_of(table: &Table) -> Option<(u64, u64)> {
    match table.rows.as_slice() {
        [] => Some((0, 0)),
        [row] => Some((row.sums.first().copied()?, row.flows)),
        _ => None,
    }
}

// `right` if two sessions are whole, `less` if fewer are, and else `wrong`. Of each the table has five
// flows of 15 octets.
fn word_of(sessions: &[SessionReport], table: &Table) -> &'static str {
    let word = match count_whole(sessions) {
        Some(0) if totals_of(table) == Some((0, 0)) => "less",
        Some(1) if totals_of(table) == Some((15, 5)) => "less",
        Some(2) if totals_of(table) == Some((30, 10)) => "right",
        _ => "wrong",
    };
    if sessions.len() == 2 { word } else { "wrong" }
}

// How a call on one thread was answered. `None` if there was no memory for what it is given.
fn serial_word(alloc: Global) -> Option<&'static str> {
    let plan = by_source(alloc).ok()?;
    let sources = two_sources(alloc).ok()?;
    match collect_serial(alloc, sources, &plan) {
        Ok(run) => Some(word_of(&run.sessions, &run.table)),
        Err(fault) => Some(fault.name()),
    }
}

#[test]
fn collect_serial_with_refused_memory(rt: HostRuntime) {
    if let Some(word) = serial_word(rt.alloc()) {
        assert!(rt; matches!(word, "right" | "less" | "OutOfMemory"));
        let _ = eprintln!(rt; "collect_serial: {word}");
    }
}

// The same in threads.
fn threaded_word<R: Threads + Wait + Sync>(rt: &R, alloc: Global) -> Option<&'static str> {
    let plan = by_source(alloc).ok()?;
    let sources = two_sources(alloc).ok()?;
    let pool = Pool {
        workers: 4,
        capacity: 1,
    };
    match collect(rt, alloc, sources, &plan, pool, &OpenGate) {
        Ok(run) => Some(word_of(&run.sessions, &run.table)),
        Err(fault) => Some(fault.name()),
    }
}

#[test]
fn collect_with_refused_memory(rt: HostRuntime) {
    if let Some(word) = threaded_word(&rt, rt.alloc()) {
        assert!(rt; matches!(word, "right" | "less" | "OutOfMemory" | "NoThread"));
        let _ = eprintln!(rt; "collect: {word}");
    }
}
