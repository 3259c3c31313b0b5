//! Collecting and writing the table.

ghost use Rattle.std.specs.Prelude.{IfErr, IfOk};
ghost use Rattle.flow_table.specs.Fitting.{FitsPlan};
ghost use Rattle.command_collect.specs.Jobs.{GathersJob, HasJobFaults, TellsJobLarge};
ghost use Rattle.report_writing.specs.Lines.{StaysFailed};
ghost use Rattle.report_writing.specs.Statuses.{number_of};
ghost use Rattle.report_writing.specs.Told.{AreToldTo};
ghost use Rattle.command_collect.specs.Runs.{RunsJob, RunsPlainly};

use crate::ending::{status_of, tell};
use crate::engine::Engine;
use crate::exporters::in_context;
use crate::gathered::{Gathered, gather};
use crate::job::CollectJob;
use crate::large::write_failure;
use element_registry::Elements;
use flow_collect::{CollectFailure, CollectFault, Pool};
use flow_export::{AnyTable, Intervals};
use flow_table::Plan;
use ipfix_session::Source;
use output_tables::{Output, export, write_export_fault};
use report_writing::{Origin, Status, WriteLines};
use std::alloc::{AllocError, Global};
use std::io::Write;
use std::sync::Wait;
use std::thread::Threads;

/// Runs each source as a session, writes the table of all their records to `out`, and answers the exit
/// status: 0 if all was well; 1 if some session ended with a fault, and the table is written; 3 if
/// nothing was collected, or the table couldn't be written.
///
/// To `err` it writes what there is to tell of the sessions, and then how many records of each class
/// there were; at status 3 the line of the fault alone. A fault of `err` is passed over. Before a
/// fault of collecting nothing is written to `out`.
pub fn run<S: Source + Send + Drop, W: Write, E: WriteLines, R: Threads + Wait + Sync>(
    rt: &R,
    alloc: Global,
    sources: Vec<S>,
    plan: &Plan,
    pool: Pool,
    output: Output,
    out: &mut W,
    err: &mut E,
) -> u8
    // The table of what was received of each session was written, and nothing else; the lines of these
    // sessions and of the table's counts were told, and nothing else; or the line of a fault alone. All was
    // well exactly if no session had a fault: then the table is that of all whole texts, and each of them ends
    // with a whole message.
    ensures runs { RunsPlainly W.contents out.old out.new
        (AreToldTo E.lines err.old err.new) S.seen sources.items plan.now (Engine.Links pool) output
        result }
    ensures kept { StaysFailed E.lines err.old err.new }
{
    let elements = Elements::built_in(alloc);
    let job = CollectJob::plain(&elements, plan, Engine::Links(pool), output);
    run_with(rt, alloc, sources, &[], &job, out, err).number()
}

/// Does as [`run`], and tells more if `job.verbosity` asks for it: to `err` it writes the lines of the
/// sessions in full, each with the origin that has the session's place. What `job.wanted` names is appended to each
/// record: the exporter by that origin, and the record's own domain; before it stands what `job.options` names. Records
/// that `job.filter` does not count are in no row and in no class, and the line of counts ends with their number. Keys
/// and counters have the names that `job.elements` give them. Where a sum is too large, a verbose run names the row after
/// the fault's line, and the session of a record with one of `job.great_counters` above 2^63. If it is strict, it ends with `SessionFault` also if
/// anything shows that something which was sent isn't in the table ([`is_spotless`](report_sessions::is_spotless)).
pub fn run_with<S: Source + Send + Drop, W: Write, E: WriteLines, R: Threads + Wait + Sync>(
    rt: &R,
    alloc: Global,
    sources: Vec<S>,
    origins: &[Origin],
    job: &CollectJob,
    out: &mut W,
    err: &mut E,
) -> Status
    // The same, with what `job` says beside: all was well exactly if no session had a fault, and if the run is
    // strict exactly if it was spotless.
    ensures runs { RunsJob W.contents out.old out.new
        (AreToldTo E.lines err.old err.new) S.seen S.failure sources.items job.now
        origins.now (number_of result) }
    ensures kept { StaysFailed E.lines err.old err.new }
{
    let gathered = match collect_job(rt, alloc, sources, origins, job) {
        Ok(gathered) => gathered,
        Err(failure) => {
            let _ = write_failure(job.verbosity, job.plan, origins, &failure, err);
            return Status::Failed;
        }
    };
    let table = AnyTable::Flat(&gathered.run.table, Intervals::OfPlan);
    if let Err(fault) = export(alloc, job.elements, job.plan, &table, job.output, out) {
        let _ = write_export_fault(fault, err);
        return Status::Failed;
    }
    let _ = tell(job, origins, &gathered, err);
    status_of(job, &gathered)
}

/// Collects by the job's engine, with what sessions know by their origins, and with the job's filter.
pub fn collect_job<S: Source + Send + Drop, R: Threads + Wait + Sync>(
    rt: &R,
    alloc: Global,
    sources: Vec<S>,
    origins: &[Origin],
    job: &CollectJob,
) -> Result<Gathered<S>, CollectFailure>
    ensures ok { IfOk result (GathersJob S.seen job.now sources.items origins.now) }
    ensures fits { IfOk result (λ g. FitsPlan job.now.plan.now g.run.table) }
    ensures faults { HasJobFaults S.seen job.now sources origins.now result }
    ensures large { IfErr result (TellsJobLarge S.seen job.now sources.items origins.now) }
{
    if let Some(fault) = job.engine.refusal(sources.len()) {
        return Err(CollectFailure::only(fault));
    }
    let given = match in_context(alloc, sources, origins, job) {
        Ok(given) => given,
        Err(AllocError) => return Err(CollectFailure::only(CollectFault::OutOfMemory)),
    };
    let collected = match job.engine.collect(rt, alloc, given, job.plan) {
        Ok(collected) => collected,
        Err(failure) => return Err(failure),
    };
    match gather(alloc, collected) {
        Ok(gathered) => Ok(gathered),
        Err(AllocError) => Err(CollectFailure::only(CollectFault::OutOfMemory)),
    }
}
