//! Accepting connections, and collecting from them.

ghost use Rattle.std.specs.Prelude.{◌≡◌};
ghost use Rattle.report_writing.specs.Lines.{StaysFailed};
ghost use Rattle.report_writing.specs.Told.{AreToldTo};
ghost use Rattle.command_collect.specs.Collects.{CollectsConnections, IfNoTime};

use crate::job::{CollectJob, Connections};
use crate::table::run_with;
use input_sources::{AcceptedAll, Listener, accept_all};
use ipfix_session::Source;
use report_writing::{Status, WriteLines, write_listening, write_not_had_because};
use std::alloc::Global;
use std::io::Write;
use std::rt::Clock;
use std::sync::Wait;
use std::thread::Threads;

/// Accepts the connections and runs them, whatever the engine.
pub fn run_connections<
    S: Source + Send + Drop,
    L: Listener<S>,
    P: Write + Copy + Drop + Send,
    W: Write,
    E: WriteLines,
    R: Clock + Threads + Wait + Sync,
>(
    rt: &R,
    alloc: Global,
    listener: &mut L,
    connections: &Connections,
    job: &CollectJob,
    progress: Option<P>,
    out: &mut W,
    err: &mut E,
) -> Status
    ensures collects { CollectsConnections S.seen L.gives L.is_of L.refuses L.coming listener.old
        listener.new connections.now W.contents out.old out.new (AreToldTo E.lines err.old err.new)
        S.failure result job.now }
    ensures closed { L.is_closed listener.new }
    ensures no_time { IfNoTime connections.now (result ≡ Status.NotOpened) }
    ensures kept { StaysFailed E.lines err.old err.new }
{
    let Connections {
        address,
        count,
        idle,
    } = *connections;
    let _ = write_listening(job.verbosity, address, count, err);
    match accept_all(
        rt,
        alloc,
        listener,
        count,
        idle,
        progress,
        job.verbosity,
        err,
    ) {
        Ok(AcceptedAll { sources, origins }) => {
            let sources = sources.into_sources();
            run_with(rt, alloc, sources, &origins, job, out, err)
        }
        Err(reason) => {
            let _ = write_not_had_because(job.verbosity, "listen", address, reason, err);
            Status::NotOpened
        }
    }
}
