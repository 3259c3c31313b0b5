//! Runs over files and connections that are in memory.

ghost use Rattle.std.specs.Prelude.{◌≡◌, ⊤, None, IfSome, true};
ghost use Rattle.flow_merge.specs.RowRecords.{CanTakeRows};
ghost use Rattle.input_sources.specs.Had.{IsUnread};

use super::sessions::{BY_SOURCE, CSV, POOL};
use collectd::{
    Accepted, CollectJob, Connections, Engine, Listener, MergeJob, OpenSource, Opened, Reason,
    Status, Verbosity, run_files, run_files_with, run_merge_with, run_tcp, run_tcp_with,
};
use element_registry::Elements;
use flow_collect::Pool;
use flow_export::Intervals;
use flow_plan::read_plan;
use flow_table::Plan;
use ipfix_session::{ScriptSource, Source};
use report_writing::NOTHING_MORE;
use std::alloc::Global;
use std::io::Sink;
use std::net::{Ipv4Addr, SocketAddr, SocketAddrV4};
use std::rt::Clock;
use std::sync::Wait;
use std::test::Fail;
use std::thread::Threads;
use std::time::Duration;
use worked_examples::flows::{NEXT_FLOW, ONE_FLOW};
use worked_examples::values::{EXPORT_ROW, EXPORT_TEMPLATE};

const NO_PROGRESS: Option<Sink> = None;

const NO_WORKERS: Engine = Engine::Links(Pool {
    workers: 0,
    capacity: 64,
});

const VERBOSE: Verbosity = Verbosity {
    verbose: true,
    strict: false,
};

fn peer() -> SocketAddr {
    SocketAddr::V4(SocketAddrV4::new(Ipv4Addr::new(192, 0, 2, 9), 4739))
}

// Opens `flows`, a session of two flows; `cut`, of which the last octet can't be read; and `export`, the
// export of a table of one row.
#[derive(Drop)]
struct Inputs {
    alloc: Global,
    closed: bool,
}

impl Inputs {
    fn new(alloc: Global) -> Self {
        Inputs {
            alloc,
            closed: false,
        }
    }

    fn source(&self, path: &str) -> Option<ScriptSource>
        ensures { IfSome result (IsUnread ⟦<ScriptSource as Source>⟧.seen) }
    {
        match path {
            "flows" => joined(self.alloc, ONE_FLOW, NEXT_FLOW, None),
            "cut" => joined(self.alloc, ONE_FLOW, NEXT_FLOW, Some(111)),
            "export" => joined(self.alloc, EXPORT_TEMPLATE, EXPORT_ROW, None),
            _ => None,
        }
    }
}

// Two messages in pieces of nine octets; a read fails after so many octets.
fn joined(
    alloc: Global,
    first: &[u8],
    second: &[u8],
    fail_at: Option<usize>,
) -> Option<ScriptSource>
    ensures { IfSome result (IsUnread ⟦<ScriptSource as Source>⟧.seen) }
{
    let mut text = Vec::from_slice(alloc, first).ok()?;
    text.extend_from_slice(second).ok()?;
    Some(ScriptSource::new(text, 9, None, fail_at))
}

impl OpenSource<ScriptSource> for Inputs {
    ghost opens = { λ _ _ _. ⊤ };

    ghost sizes = { λ _ _ _. ⊤ };

    ghost refuses = { λ _ _ _. ⊤ };

    ghost coming = { λ _. None };

    fn open_source(&mut self, path: &str) -> Result<Opened<ScriptSource>, Reason> {
        match self.source(path) {
            Some(source) => Ok(Opened { source, size: None }),
            None => Err(Reason::NoSuchFile),
        }
    }
}

// Each connection is a session of two flows.
impl Listener<ScriptSource> for Inputs {
    ghost gives = { λ _ _ _. ⊤ };

    ghost is_of = { λ _ _ _. ⊤ };

    ghost refuses = { λ _ _. ⊤ };

    ghost coming = { λ _. None };

    ghost is_closed = { λ i. i.closed ≡ true };

    fn next_source(&mut self, idle: Option<Duration>) -> Result<Accepted<ScriptSource>, Reason> {
        if self.closed {
            return Err(Reason::Other);
        }
        if let Some(limit) = idle
            && limit.is_zero()
        {
            return Err(Reason::NotValid);
        }
        match self.source("flows") {
            Some(source) => Ok(Accepted {
                source,
                peer: peer(),
            }),
            None => Err(Reason::NoSuchFile),
        }
    }

    fn close(&mut self) {
        self.closed = true;
    }
}

// What is written by a run of these files, what is told of it, and the status, one after the other.
fn run_paths<R: Clock + Threads + Wait + Sync>(
    rt: &R,
    alloc: Global,
    paths: &[&str],
) -> Result<Vec<u8>, Fail> {
    let mut inputs = Inputs::new(alloc);
    let plan = read_plan(alloc, BY_SOURCE)?;
    let (mut out, mut err) = (Vec::new(alloc), Vec::new(alloc));
    let status = run_files(
        rt,
        alloc,
        &mut inputs,
        paths,
        &plan,
        POOL,
        CSV,
        NO_PROGRESS,
        &mut out,
        &mut err,
    );
    joined_with(status, out, &err)
}

fn joined_with(status: u8, out: Vec<u8>, err: &[u8]) -> Result<Vec<u8>, Fail> {
    let mut text = out;
    text.extend_from_slice(err)?;
    text.push(status.saturating_add(b'0'))?;
    Ok(text)
}

#[test]
fn collects_files_in_memory(rt: HostRuntime) -> Result<(), Fail> {
    let text = run_paths(&rt, rt.alloc(), &["flows", "cut", "flows"])?;
    let want = b"start,end,sourceIPv4Address,octetDeltaCount,flows
0,59999,192.0.2.1,7500,5
collectd: session 2: fault 15 ReadFailed
collectd: records: used 5 options 0 untimed 0 backward 0 unkeyed 0 too_long 0
1";
    assert_eq!(rt; text.as_slice(), want.as_slice());
    Ok(())
}

// The same, told as a job says it.
fn run_told<R: Clock + Threads + Wait + Sync>(
    rt: &R,
    alloc: Global,
    paths: &[&str],
    engine: Engine,
    verbosity: Verbosity,
) -> Result<Vec<u8>, Fail> {
    let mut inputs = Inputs::new(alloc);
    let plan = read_plan(alloc, BY_SOURCE)?;
    let (mut out, mut err) = (Vec::new(alloc), Vec::new(alloc));
    let elements = Elements::built_in(alloc);
    let job = CollectJob {
        verbosity,
        ..CollectJob::plain(&elements, &plan, engine, CSV)
    };
    let status = run_files_with(
        rt,
        alloc,
        &mut inputs,
        paths,
        &job,
        NO_PROGRESS,
        &mut out,
        &mut err,
    );
    joined_with(status.number(), out, &err)
}

#[test]
fn tells_files_by_their_names(rt: HostRuntime) -> Result<(), Fail> {
    let verbosity = Verbosity {
        verbose: true,
        strict: true,
    };
    let paths = ["flows", "cut"];
    let over_links = run_told(&rt, rt.alloc(), &paths, Engine::Links(POOL), verbosity)?;
    let in_lots = run_told(&rt, rt.alloc(), &paths, Engine::Lots(2), verbosity)?;
    let want = b"start,end,sourceIPv4Address,octetDeltaCount,flows
0,59999,192.0.2.1,4500,3
collectd: session 1 \"flows\": opened
collectd: session 2 \"cut\": opened
collectd: session 1 \"flows\": ended: messages 2 octets 112 records 2
collectd: session 2: fault 15 ReadFailed
collectd: session 2 \"cut\": fault 15 ReadFailed: message 2 octet 68
collectd: session 2 \"cut\": ended: messages 1 octets 68 records 1
collectd: records: used 3 options 0 untimed 0 backward 0 unkeyed 0 too_long 0
1";
    assert_eq!(rt; over_links.as_slice(), want.as_slice());
    assert_eq!(rt; in_lots.as_slice(), want.as_slice());
    Ok(())
}

#[test]
fn a_file_that_is_missing_comes_before_a_pool_without_workers(rt: HostRuntime) -> Result<(), Fail> {
    let text = run_told(&rt, rt.alloc(), &["flows", "missing"], NO_WORKERS, VERBOSE)?;
    let want = b"collectd: session 1 \"flows\": opened
collectd: open: missing: no such file
2";
    assert_eq!(rt; text.as_slice(), want.as_slice());
    Ok(())
}

#[test]
fn a_pool_without_workers_is_refused_after_all_files_were_opened(
    rt: HostRuntime,
) -> Result<(), Fail> {
    let text = run_told(&rt, rt.alloc(), &["flows", "cut"], NO_WORKERS, VERBOSE)?;
    let want = b"collectd: session 1 \"flows\": opened
collectd: session 2 \"cut\": opened
collectd: collect: fault 1 Workers
3";
    assert_eq!(rt; text.as_slice(), want.as_slice());
    Ok(())
}

// A merge of a plan's exports.
fn merge_under<'a>(elements: &'a Elements, plan: &'a Plan) -> MergeJob<'a>
    ensures { CanTakeRows result.intervals }
{
    MergeJob {
        elements,
        plan,
        intervals: Intervals::OfPlan,
        output: CSV,
        verbosity: NOTHING_MORE,
    }
}

// The same of the merge of two files with the same row.
fn merged(alloc: Global) -> Result<Vec<u8>, Fail> {
    let mut inputs = Inputs::new(alloc);
    let plan = read_plan(alloc, BY_SOURCE)?;
    let (mut out, mut err) = (Vec::new(alloc), Vec::new(alloc));
    let elements = Elements::built_in(alloc);
    let job = merge_under(&elements, &plan);
    let paths = ["export", "export"];
    let status = run_merge_with(&mut inputs, alloc, &paths, &job, &mut out, &mut err);
    joined_with(status.number(), out, &err)
}

#[test]
fn merges_files_in_memory(rt: HostRuntime) -> Result<(), Fail> {
    let text = merged(rt.alloc())?;
    let want = b"start,end,sourceIPv4Address,octetDeltaCount,flows
0,59999,192.0.2.1,3000,2
collectd: merged: files 2 rows 1
0";
    assert_eq!(rt; text.as_slice(), want.as_slice());
    Ok(())
}

// The same of three connections with this limit.
fn run_peers<R: Clock + Threads + Wait + Sync>(
    rt: &R,
    alloc: Global,
    idle: Option<Duration>,
) -> Result<Vec<u8>, Fail> {
    let mut inputs = Inputs::new(alloc);
    let plan = read_plan(alloc, BY_SOURCE)?;
    let (mut out, mut err) = (Vec::new(alloc), Vec::new(alloc));
    let status = run_tcp(
        rt,
        alloc,
        &mut inputs,
        "peers",
        3,
        idle,
        &plan,
        POOL,
        CSV,
        NO_PROGRESS,
        &mut out,
        &mut err,
    );
    joined_with(status, out, &err)
}

#[test]
fn collects_connections_in_memory(rt: HostRuntime) -> Result<(), Fail> {
    let text = run_peers(&rt, rt.alloc(), Some(Duration::from_secs(1)))?;
    let want = b"start,end,sourceIPv4Address,octetDeltaCount,flows
0,59999,192.0.2.1,9000,6
collectd: records: used 6 options 0 untimed 0 backward 0 unkeyed 0 too_long 0
0";
    assert_eq!(rt; text.as_slice(), want.as_slice());
    Ok(())
}

#[test]
fn tells_connections_by_their_peers(rt: HostRuntime) -> Result<(), Fail> {
    let mut inputs = Inputs::new(rt.alloc());
    let plan = read_plan(rt.alloc(), BY_SOURCE)?;
    let (mut out, mut err) = (Vec::new(rt.alloc()), Vec::new(rt.alloc()));
    let verbosity = Verbosity {
        verbose: true,
        strict: false,
    };
    let elements = Elements::built_in(rt.alloc());
    let job = CollectJob {
        verbosity,
        ..CollectJob::plain(&elements, &plan, Engine::Links(POOL), CSV)
    };
    let connections = Connections {
        address: "peers",
        count: 1,
        idle: None,
    };
    let status = run_tcp_with(
        &rt,
        rt.alloc(),
        &mut inputs,
        &connections,
        &job,
        NO_PROGRESS,
        &mut out,
        &mut err,
    );
    let want = b"collectd: listening: peers: connections 1
collectd: session 1 192.0.2.9:4739: accepted
collectd: session 1 192.0.2.9:4739: ended: messages 2 octets 112 records 2
collectd: records: used 2 options 0 untimed 0 backward 0 unkeyed 0 too_long 0
";
    assert_eq!(rt; err.as_slice(), want.as_slice());
    assert_eq!(rt; status, Status::Well);
    Ok(())
}
