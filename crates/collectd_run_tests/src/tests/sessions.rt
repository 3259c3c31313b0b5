//! Runs of sessions that are in memory: each read of one fails, and each write.

use collectd::{Output, run};
use flow_collect::Pool;
use flow_export::Format;
use flow_plan::read_plan;
use ipfix_session::ScriptSource;
use std::alloc::{AllocError, Global};
use std::io::Write;
use std::sync::Wait;
use std::test::Fail;
use std::thread::Threads;
use worked_examples::flows::{NEXT_FLOW, ONE_FLOW};
use worked_examples::{FailingWriter, text_of};

pub const BY_SOURCE: &str = "interval_ms = 60000
method = \"start\"
keys = [\"sourceIPv4Address\"]
counters = [\"octetDeltaCount\"]
";

pub const CSV: Output = Output {
    format: Format::Csv,
    time: 0,
};

pub const POOL: Pool = Pool {
    workers: 2,
    capacity: 64,
};

// Three sources of a flow in each of two messages. The second is interrupted, and then fails after so many
// octets.
fn three_sources(alloc: Global, fail_at: usize) -> Result<Vec<ScriptSource>, AllocError> {
    let interrupt_at = Some((fail_at as u64 / 16).saturating_add(1));
    let fails = [(None, None), (interrupt_at, Some(fail_at)), (None, None)];
    let mut sources = Vec::new(alloc);
    for (interrupt_at, fail_at) in fails {
        let text = text_of(alloc, &[ONE_FLOW, NEXT_FLOW])?;
        sources.push(ScriptSource::new(text, 16, interrupt_at, fail_at))?;
    }
    Ok(sources)
}

// What is told of a run of these sessions, and after it the status.
fn run_by_source<W: Write, R: Threads + Wait + Sync>(
    rt: &R,
    alloc: Global,
    fail_at: usize,
    out: &mut W,
) -> Result<Vec<u8>, Fail> {
    let plan = read_plan(alloc, BY_SOURCE)?;
    let sources = three_sources(alloc, fail_at)?;
    let mut err = Vec::new(alloc);
    let status = run(rt, alloc, sources, &plan, POOL, CSV, out, &mut err);
    err.push(status.saturating_add(b'0'))?;
    Ok(err)
}

// The table and all the rest of such a run.
fn run_whole<R: Threads + Wait + Sync>(
    rt: &R,
    alloc: Global,
    fail_at: usize,
) -> Result<Vec<u8>, Fail> {
    let mut out = Vec::new(alloc);
    let told = run_by_source(rt, alloc, fail_at, &mut out)?;
    out.extend_from_slice(&told)?;
    Ok(out)
}

// What is due if so many records are used.
fn text_of_run(alloc: Global, used: u64) -> Result<String, AllocError> {
    let sum = used.saturating_mul(1500);
    format!(in alloc;
        "start,end,sourceIPv4Address,octetDeltaCount,flows
0,59999,192.0.2.1,{sum},{used}
collectd: session 2: fault 15 ReadFailed
collectd: records: used {used} options 0 untimed 0 backward 0 unkeyed 0 too_long 0
1"
    )
}

/// The messages of the session that fails end at 68 and at 112 octets.
#[test]
fn each_read_fails(rt: HostRuntime) -> Result<(), Fail> {
    for fail_at in 0..113 {
        let used = match fail_at {
            0..68 => 4,
            68..112 => 5,
            _ => 6,
        };
        let text = run_whole(&rt, rt.alloc(), fail_at)?;
        let want = text_of_run(rt.alloc(), used)?;
        assert_eq!(rt; text.as_slice(), want.as_bytes(), "{fail_at}");
    }
    Ok(())
}

const TABLE: &[u8] = b"start,end,sourceIPv4Address,octetDeltaCount,flows
0,59999,192.0.2.1,9000,6
";

const WELL: &[u8] = b"collectd: records: used 6 options 0 untimed 0 backward 0 unkeyed 0 too_long 0
0";

/// Eight writes for the heading and four for the row, of at most seven octets each, and a flush.
#[test]
fn each_write_fails(rt: HostRuntime) -> Result<(), Fail> {
    for calls in 0..14 {
        let mut out = FailingWriter::new(rt.alloc(), 7, calls);
        let told = run_by_source(&rt, rt.alloc(), 1000, &mut out)?;
        let want = if calls < 13 {
            b"collectd: export: fault 2 WriteFailed\n3".as_slice()
        } else {
            WELL
        };
        assert_eq!(rt; told.as_slice(), want, "{calls}");
        assert!(rt; TABLE.starts_with(out.taken.as_slice()));
    }
    Ok(())
}
