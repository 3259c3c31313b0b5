//! Collecting from files, with a receipt.

ghost use Rattle.std.specs.Prelude.{IfSome};
ghost use Rattle.report_writing.specs.Lines.{StaysFailed};
ghost use Rattle.report_writing.specs.Told.{AreToldTo};
ghost use Rattle.command_collect.specs.ReceiptedRuns.{HinderFiles, ReceiptedFiles};

use crate::job::CollectJob;
use crate::receipts::place::ReceiptPlace;
use crate::receipts::run::{Ended, Receipted, run_receipted};
use input_sources::{NotOpened, OpenSource, OpenedAll, open_all};
use ipfix_session::Source;
use report_writing::{Status, WriteLines, write_not_had_because};
use std::alloc::Global;
use std::io::Write;
use std::rt::Clock;
use std::sync::Wait;
use std::thread::Threads;

/// Does as [`run_files_with`](crate::run_files_with), and then as [`run_receipted`].
pub fn run_files_receipted<
    S: Source + Send + Drop,
    O: OpenSource<S>,
    P: Write + Copy + Drop + Send,
    W: Write + Drop,
    Q: ReceiptPlace + Drop,
    E: WriteLines,
    R: Clock + Threads + Wait + Sync,
>(
    rt: &R,
    alloc: Global,
    files: &mut O,
    paths: &[&str],
    job: &CollectJob,
    progress: Option<P>,
    to: Receipted<W, Q>,
    err: &mut E,
) -> Ended<W, Q>
    // The sources of the paths, in their order, each opened once, were run, as `run_receipted` says it, and no
    // others; or each file that was had was told, and then the path that can't be opened.
    ensures collects { ReceiptedFiles W.contents Q.holds to result S.seen S.failure job.now
        O.opens O.sizes O.refuses O.coming files.old files.new paths.now
        (AreToldTo E.lines err.old err.new) }
    // It says so of its inputs exactly if that is the fault which it tells, and only where it is so.
    ensures hindered { IfSome result.hindrance (HinderFiles S.seen job.now O.opens O.sizes
        O.coming files.old files.new paths.now) }
    ensures kept { StaysFailed E.lines err.old err.new }
{
    match open_all(rt, alloc, files, paths, progress, job.verbosity, err) {
        Ok(OpenedAll { sources, origins }) => {
            let sources = sources.into_sources();
            run_receipted(rt, alloc, sources, &origins, job, to, err)
        }
        Err(NotOpened { path, reason }) => {
            let _ = write_not_had_because(job.verbosity, "open", path, reason, err);
            let Receipted { out, place, .. } = to;
            Ended {
                status: Status::NotOpened,
                hindrance: None,
                out,
                place,
            }
        }
    }
}
