//! Collecting from files.

ghost use Rattle.report_writing.specs.Lines.{StaysFailed};
ghost use Rattle.report_writing.specs.Told.{AreToldTo};
ghost use Rattle.command_collect.specs.Collects.{CollectsFiles, CollectsFilesPlainly};
ghost use Rattle.command_collect.specs.declared.engine.Engine.TheVariants.{Links};

use crate::engine::Engine;
use crate::job::CollectJob;
use crate::table::run_with;
use element_registry::Elements;
use flow_collect::Pool;
use flow_table::Plan;
use input_sources::{NotOpened, OpenSource, OpenedAll, open_all};
use ipfix_session::Source;
use output_tables::Output;
use report_writing::{Status, WriteLines, write_not_had_because};
use std::alloc::Global;
use std::io::Write;
use std::rt::Clock;
use std::sync::Wait;
use std::thread::Threads;

/// Opens the files of IPFIX messages (RFC 5655), each of which is a session, in order, and then does as
/// [`run`]. If one can't be opened the status is 2, and its line is written to `err`.
///
/// Each session writes to `progress`, if it is there, what it has read, and of how many octets: a line at
/// most once a second, after a read. A fault of `progress` is passed over.
pub fn run_files<
    S: Source + Send + Drop,
    O: OpenSource<S>,
    P: Write + Copy + Drop + Send,
    W: Write,
    E: WriteLines,
    R: Clock + Threads + Wait + Sync,
>(
    rt: &R,
    alloc: Global,
    files: &mut O,
    paths: &[&str],
    plan: &Plan,
    pool: Pool,
    output: Output,
    progress: Option<P>,
    out: &mut W,
    err: &mut E,
) -> u8
    // The sources of the paths, in their order, each opened once, were run, as `run` says it, and no others;
    // or each file that was had was told, and then the path that can't be opened.
    ensures collects { CollectsFilesPlainly S.seen O.opens O.sizes O.refuses O.coming files.old files.new
        paths.now W.contents out.old out.new (AreToldTo E.lines err.old err.new) result
        plan.now (Links pool) output }
    ensures kept { StaysFailed E.lines err.old err.new }
{
    let elements = Elements::built_in(alloc);
    let job = CollectJob::plain(&elements, plan, Engine::Links(pool), output);
    run_files_with(rt, alloc, files, paths, &job, progress, out, err).number()
}

/// Does as [`run_files`], and tells more if `job.verbosity` asks for it, as [`run_with`]: in verbose lines each file that is opened, and the system's reason after one that can't be. If the
/// engine or the number of files has a fault, all files are opened first and none is read, and it ends with `Failed`.
pub fn run_files_with<
    S: Source + Send + Drop,
    O: OpenSource<S>,
    P: Write + Copy + Drop + Send,
    W: Write,
    E: WriteLines,
    R: Clock + Threads + Wait + Sync,
>(
    rt: &R,
    alloc: Global,
    files: &mut O,
    paths: &[&str],
    job: &CollectJob,
    progress: Option<P>,
    out: &mut W,
    err: &mut E,
) -> Status
    // The sources of the paths, in their order, each opened once, were run, as `run_with` says it, and no
    // others; or each file that was had was told, and then the path that can't be opened.
    ensures collects { CollectsFiles S.seen O.opens O.sizes O.refuses O.coming files.old files.new
        paths.now W.contents out.old out.new (AreToldTo E.lines err.old err.new)
        S.failure result job.now }
    ensures kept { StaysFailed E.lines err.old err.new }
{
    match open_all(rt, alloc, files, paths, progress, job.verbosity, err) {
        Ok(OpenedAll { sources, origins }) => {
            let sources = sources.into_sources();
            run_with(rt, alloc, sources, &origins, job, out, err)
        }
        Err(NotOpened { path, reason }) => {
            let _ = write_not_had_because(job.verbosity, "open", path, reason, err);
            Status::NotOpened
        }
    }
}
