//! Collecting from connections, with a receipt.

ghost use Rattle.std.specs.Prelude.{◌≡◌};
ghost use Rattle.report_writing.specs.Lines.{StaysFailed};
ghost use Rattle.report_writing.specs.Told.{AreToldTo};
ghost use Rattle.report_writing.specs.declared.status.Status.TheVariants.{NotOpened};
ghost use Rattle.command_collect.specs.Collects.{IfFits, IfNoTime, IfUnfit, TellsUnfit};
ghost use Rattle.command_collect.specs.ReceiptedRuns.{ReceiptedConnections};

use crate::collect_fault::write_collect_fault;
use crate::early::refused_early;
use crate::job::{CollectJob, Connections};
use crate::receipts::place::ReceiptPlace;
use crate::receipts::run::{Ended, Receipted, run_receipted};
use input_sources::{AcceptedAll, Listener, accept_all};
use ipfix_session::Source;
use report_writing::{Status, WriteLines, write_listening, write_not_had_because};
use std::alloc::Global;
use std::io::Write;
use std::rt::Clock;
use std::sync::Wait;
use std::thread::Threads;

/// Does as [`run_tcp_with`](crate::run_tcp_with), and then as [`run_receipted`].
#[tactic(auto, using(crate::proofs::Refused::whatever, crate::proofs::Refused::even_if_none, crate::proofs::Refused::not_if_some, crate::proofs::Refused::not_if_none))]
pub fn run_tcp_receipted<
    S: Source + Send + Drop,
    L: Listener<S>,
    P: Write + Copy + Drop + Send,
    W: Write + Drop,
    Q: ReceiptPlace + Drop,
    E: WriteLines,
    R: Clock + Threads + Wait + Sync,
>(
    rt: &R,
    alloc: Global,
    listener: &mut L,
    connections: &Connections,
    job: &CollectJob,
    progress: Option<P>,
    to: Receipted<W, Q>,
    err: &mut E,
) -> Ended<W, Q>
    // So many connections with this limit were accepted and run, as `run_receipted` says it, and no others; or
    // each that was had was told, and then the address that gives none.
    ensures collects { IfFits job.now.engine
        (ReceiptedConnections W.contents Q.holds to result S.seen S.failure job.now L.gives
        L.is_of L.refuses L.coming listener.old listener.new connections.now
        (AreToldTo E.lines err.old err.new)) }
    ensures closed { L.is_closed listener.new }
    // No connection can have a limit of no time.
    ensures no_time { IfFits job.now.engine
        (IfNoTime connections.now (result.status ≡ NotOpened)) }
    // An engine that has a fault is refused, and the fault that it has is told.
    ensures engine { IfUnfit job.now.engine (result.status ≡ Status.Failed) }
    ensures told { TellsUnfit job.now.engine connections.now.count
        (AreToldTo E.lines err.old err.new) }
    // And then nothing was written, and no connection was accepted.
    ensures untouched { IfUnfit job.now.engine (result.out ≡ to.out) }
    ensures unaccepted { IfUnfit job.now.engine (L.coming listener.new ≡ L.coming listener.old) }
    ensures kept { StaysFailed E.lines err.old err.new }
{
    if let Some(fault) = refused_early(job.engine, connections.count) {
        listener.close();
        let _ = write_collect_fault(fault, err);
        let Receipted { out, place, .. } = to;
        return Ended {
            status: Status::Failed,
            hindrance: None,
            out,
            place,
        };
    }
    run_connections(rt, alloc, listener, connections, job, progress, to, err)
}

// Accepts the connections and runs them, whatever the engine.
fn run_connections<
    S: Source + Send + Drop,
    L: Listener<S>,
    P: Write + Copy + Drop + Send,
    W: Write + Drop,
    Q: ReceiptPlace + Drop,
    E: WriteLines,
    R: Clock + Threads + Wait + Sync,
>(
    rt: &R,
    alloc: Global,
    listener: &mut L,
    connections: &Connections,
    job: &CollectJob,
    progress: Option<P>,
    to: Receipted<W, Q>,
    err: &mut E,
) -> Ended<W, Q>
    ensures collects { ReceiptedConnections W.contents Q.holds to result S.seen S.failure
        job.now L.gives L.is_of L.refuses L.coming listener.old listener.new connections.now
        (AreToldTo E.lines err.old err.new) }
    ensures closed { L.is_closed listener.new }
    ensures no_time { IfNoTime connections.now (result.status ≡ NotOpened) }
    ensures kept { StaysFailed E.lines err.old err.new }
{
    let Connections {
        address,
        count,
        idle,
    } = *connections;
    let _ = write_listening(job.verbosity, address, count, err);
    match accept_all(
        rt,
        alloc,
        listener,
        count,
        idle,
        progress,
        job.verbosity,
        err,
    ) {
        Ok(AcceptedAll { sources, origins }) => {
            let sources = sources.into_sources();
            run_receipted(rt, alloc, sources, &origins, job, to, err)
        }
        Err(reason) => {
            let _ = write_not_had_because(job.verbosity, "listen", address, reason, err);
            let Receipted { out, place, .. } = to;
            Ended {
                status: Status::NotOpened,
                hindrance: None,
                out,
                place,
            }
        }
    }
}
