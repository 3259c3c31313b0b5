//! Sources that wait in a queue, which tells what is still to come: contracts say which of them were had.

ghost use Rattle.std.specs.Prelude.{◌≡◌, ◌≢◌, ◌++◌, ⊤, List, All, Some, length, true};
ghost use Rattle.input_sources.specs.Had.{IsUnread};
ghost use Rattle.report_writing.specs.Statuses.{number_of};
ghost use Rattle.ipfix_session.specs.declared.script.ScriptSource.{ScriptSource as Script};

use super::sessions::{BY_SOURCE, CSV, POOL};
use collectd::{Accepted, Listener, OpenSource, Opened, Reason, Status, run_files, run_tcp};
use flow_plan::read_plan;
use flow_table::Plan;
use ipfix_session::{ScriptSource, Source};
use std::alloc::{AllocError, Global};
use std::collections::VecDeque;
use std::io::Sink;
use std::net::{Ipv4Addr, SocketAddr, SocketAddrV4};
use std::rt::Clock;
use std::sync::Wait;
use std::test::Fail;
use std::thread::Threads;
use std::time::Duration;
use worked_examples::flows::ONE_FLOW;

const NO_PROGRESS: Option<Sink> = None;

// Sources of which nothing was read, the next one first.
#[derive(Drop)]
struct Waiting {
    sources: VecDeque<ScriptSource>,
    closed: bool,
    ghost unread: { All (IsUnread ⟦<ScriptSource as Source>⟧.seen) sources.items },
}

impl Waiting {
    fn new(alloc: Global) -> Self {
        Waiting {
            sources: VecDeque::new(alloc),
            closed: false,
        }
    }

    // Appends a session of one flow.
    fn push(&mut self, alloc: Global) -> Result<(), AllocError> {
        let text = Vec::from_slice(alloc, ONE_FLOW)?;
        let source = ScriptSource::new(text, 9, None, None);
        self.sources.push_back(source)?;
        Ok(())
    }
}

impl OpenSource<ScriptSource> for Waiting {
    ghost opens = { λ _ _ _. ⊤ };

    ghost sizes = { λ _ _ _. ⊤ };

    ghost refuses = { λ _ _ _. ⊤ };

    ghost coming = { λ w. Some w.sources.items };

    fn open_source(&mut self, path: &str) -> Result<Opened<ScriptSource>, Reason> {
        match self.sources.pop_front() {
            Some(source) => Ok(Opened { source, size: None }),
            None => Err(Reason::NoSuchFile),
        }
    }
}

impl Listener<ScriptSource> for Waiting {
    ghost gives = { λ _ _ _. ⊤ };

    ghost is_of = { λ _ _ _. ⊤ };

    ghost refuses = { λ _ _. ⊤ };

    ghost coming = { λ w. Some w.sources.items };

    ghost is_closed = { λ w. w.closed ≡ true };

    fn next_source(&mut self, idle: Option<Duration>) -> Result<Accepted<ScriptSource>, Reason> {
        if self.closed || idle.is_some() {
            return Err(Reason::Other);
        }
        match self.sources.pop_front() {
            Some(source) => Ok(Accepted {
                source,
                peer: SocketAddr::V4(SocketAddrV4::new(Ipv4Addr::new(192, 0, 2, 9), 4739)),
            }),
            None => Err(Reason::Silent),
        }
    }

    fn close(&mut self) {
        self.closed = true;
    }
}

// The status of a run of these paths: each took the source that was next.
fn run_paths<R: Clock + Threads + Wait + Sync>(
    rt: &R,
    alloc: Global,
    waiting: &mut Waiting,
    paths: &[&str],
    plan: &Plan,
) -> u8
    ensures { result ≢ number_of Status.NotOpened → (had : List Script)
        × (waiting.old.sources.items ≡ had ++ waiting.new.sources.items)
        × (length had ≡ length paths.now) }
{
    let (mut out, mut err) = (Vec::new(alloc), Vec::new(alloc));
    run_files(
        rt,
        alloc,
        waiting,
        paths,
        plan,
        POOL,
        CSV,
        NO_PROGRESS,
        &mut out,
        &mut err,
    )
}

// The same of so many connections: nobody is let in any more.
fn run_connections<R: Clock + Threads + Wait + Sync>(
    rt: &R,
    alloc: Global,
    waiting: &mut Waiting,
    count: usize,
    plan: &Plan,
) -> u8
    ensures accepted { result ≢ number_of Status.NotOpened → (had : List Script)
        × (waiting.old.sources.items ≡ had ++ waiting.new.sources.items)
        × (length had ≡ count) }
    ensures closed { waiting.new.closed ≡ true }
{
    let (mut out, mut err) = (Vec::new(alloc), Vec::new(alloc));
    run_tcp(
        rt,
        alloc,
        waiting,
        "waiting",
        count,
        None,
        plan,
        POOL,
        CSV,
        NO_PROGRESS,
        &mut out,
        &mut err,
    )
}

#[test]
fn takes_the_sources_that_come_first(rt: HostRuntime) -> Result<(), Fail> {
    let plan = read_plan(rt.alloc(), BY_SOURCE)?;
    let mut waiting = Waiting::new(rt.alloc());
    for _ in 0..5 {
        waiting.push(rt.alloc())?;
    }
    let status = run_paths(&rt, rt.alloc(), &mut waiting, &["one", "two"], &plan);
    assert_eq!(rt; status, 0);
    assert_eq!(rt; waiting.sources.len(), 3);
    assert_eq!(rt; run_connections(&rt, rt.alloc(), &mut waiting, 2, &plan), 0);
    assert_eq!(rt; waiting.sources.len(), 1);
    assert!(rt; waiting.closed);
    assert_eq!(rt; run_connections(&rt, rt.alloc(), &mut waiting, 1, &plan), 2);
    assert_eq!(rt; waiting.sources.len(), 1);
    Ok(())
}
