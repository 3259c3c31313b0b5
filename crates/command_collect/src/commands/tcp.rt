//! Collecting from connections.

ghost use Rattle.std.specs.Prelude.{◌≡◌};
ghost use Rattle.report_writing.specs.Lines.{StaysFailed};
ghost use Rattle.report_writing.specs.Statuses.{number_of};
ghost use Rattle.report_writing.specs.Told.{AreToldTo};
ghost use Rattle.command_collect.specs.Collects.{CollectsConnections, CollectsConnectionsPlainly, IfFits, IfNoTime, IfNoTimeFor, IfUnfit, TellsUnfit};
ghost use Rattle.command_collect.specs.declared.engine.Engine.TheVariants.{Links};

use super::connections::run_connections;
use crate::collect_fault::write_collect_fault;
use crate::early::refused_early;
use crate::engine::Engine;
use crate::job::{CollectJob, Connections};
use element_registry::Elements;
use flow_collect::Pool;
use flow_table::Plan;
use input_sources::Listener;
use ipfix_session::Source;
use output_tables::Output;
use report_writing::{Status, WriteLines};
use std::alloc::Global;
use std::io::Write;
use std::rt::Clock;
use std::sync::Wait;
use std::thread::Threads;
use std::time::Duration;

/// Accepts so many connections, each of which is a session, and then does as [`run`]. A read that waits
/// for longer than `idle` fails, and so ends its session as ReadFailed; with no `idle` it waits for as
/// long as it takes. If a connection can't be accepted, or can't have that limit, the status is 2, and a
/// line with `addr` is written to `err`.
///
/// The listener is closed before the first connection is read, and however the run ends: a peer that comes
/// later is refused, and knows that nobody takes what it sends.
///
/// Each session writes to `progress`, if it is there, what it has read: a line at most once a second,
/// after a read. A fault of `progress` is passed over.
pub fn run_tcp<
    S: Source + Send + Drop,
    L: Listener<S>,
    P: Write + Copy + Drop + Send,
    W: Write,
    E: WriteLines,
    R: Clock + Threads + Wait + Sync,
>(
    rt: &R,
    alloc: Global,
    listener: &mut L,
    addr: &str,
    count: usize,
    idle: Option<Duration>,
    plan: &Plan,
    pool: Pool,
    output: Output,
    progress: Option<P>,
    out: &mut W,
    err: &mut E,
) -> u8
    // So many connections with this limit were accepted and run, as `run` says it, and no others; or each that
    // was had was told, and then the address that gives none.
    ensures collects { CollectsConnectionsPlainly S.seen L.gives L.is_of L.refuses L.coming listener.old
        listener.new idle count addr.now W.contents out.old out.new
        (AreToldTo E.lines err.old err.new) result plan.now
        (Links pool) output }
    ensures closed { L.is_closed listener.new }
    // No connection can have a limit of no time.
    ensures no_time { IfNoTimeFor idle count (result ≡ number_of Status.NotOpened) }
    ensures kept { StaysFailed E.lines err.old err.new }
{
    let elements = Elements::built_in(alloc);
    let job = CollectJob::plain(&elements, plan, Engine::Links(pool), output);
    let connections = Connections {
        address: addr,
        count,
        idle,
    };
    run_connections(rt, alloc, listener, &connections, &job, progress, out, err).number()
}

/// Does as [`run_tcp`], and tells more if `job.verbosity` asks for it, as
/// [`run_with`](crate::run_with): in verbose lines that it waits for connections, each that is accepted,
/// and the system's reason after one that can't be. If the engine has a fault, no connection is accepted, and it
/// ends with `Failed`.
#[tactic(auto, using(crate::proofs::Refused::whatever, crate::proofs::Refused::even_if_none, crate::proofs::Refused::not_if_some, crate::proofs::Refused::not_if_none))]
pub fn run_tcp_with<
    S: Source + Send + Drop,
    L: Listener<S>,
    P: Write + Copy + Drop + Send,
    W: Write,
    E: WriteLines,
    R: Clock + Threads + Wait + Sync,
>(
    rt: &R,
    alloc: Global,
    listener: &mut L,
    connections: &Connections,
    job: &CollectJob,
    progress: Option<P>,
    out: &mut W,
    err: &mut E,
) -> Status
    // So many connections with this limit were accepted and run, as `run_with` says it, and no others; or
    // each that was had was told, and then the address that gives none.
    ensures collects { IfFits job.now.engine
        (CollectsConnections S.seen L.gives L.is_of L.refuses L.coming listener.old listener.new
        connections.now W.contents out.old out.new (AreToldTo E.lines err.old err.new)
        S.failure result job.now) }
    ensures closed { L.is_closed listener.new }
    // No connection can have a limit of no time.
    ensures no_time { IfFits job.now.engine
        (IfNoTime connections.now (result ≡ Status.NotOpened)) }
    // An engine that has a fault is refused, and the fault that it has is told.
    ensures engine { IfUnfit job.now.engine (result ≡ Status.Failed) }
    ensures told { TellsUnfit job.now.engine connections.now.count
        (AreToldTo E.lines err.old err.new) }
    // And then nothing was written, and no connection was accepted.
    ensures untouched { IfUnfit job.now.engine (out.new ≡ out.old) }
    ensures unaccepted { IfUnfit job.now.engine (L.coming listener.new ≡ L.coming listener.old) }
    ensures kept { StaysFailed E.lines err.old err.new }
{
    if let Some(fault) = refused_early(job.engine, connections.count) {
        listener.close();
        let _ = write_collect_fault(fault, err);
        return Status::Failed;
    }
    run_connections(rt, alloc, listener, connections, job, progress, out, err)
}
