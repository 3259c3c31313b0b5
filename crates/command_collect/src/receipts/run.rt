//! Collecting, and writing the table and its receipt.

ghost use Rattle.std.specs.Prelude.{◌≡◌, IfErr, IfSome, OnOk};
ghost use Rattle.flow_table.specs.Fitting.{FitsPlan};
ghost use Rattle.report_writing.specs.Lines.{StaysFailed};
ghost use Rattle.report_writing.specs.Told.{AreToldTo};
ghost use Rattle.table_receipts.specs.Texts.{receipt_text};
ghost use Rattle.table_receipts.specs.Values.{receipt_value};
ghost use Rattle.command_collect.specs.HashedRuns.{NoneIsMade, WritesRun};
ghost use Rattle.command_collect.specs.ReceiptedRuns.{Hinders, IsOfReceipt, IsPut, RunsReceipted, hindrance_in, hindrance_of};

use crate::ending::{status_of, tell};
use crate::job::CollectJob;
use crate::large::write_failure;
use crate::receipts::collecting::{HashedRun, collect_hashed};
use crate::receipts::fault::{ReceiptFault, RunFault, write_run_fault};
use crate::receipts::made_run::{MadeRun, make_run};
use crate::receipts::making::MadeWith;
use crate::receipts::place::ReceiptPlace;
use flow_collect::CollectFault;
use ipfix_session::Source;
use report_writing::{Origin, Status, WriteLines};
use std::alloc::Global;
use std::io::Write;
use std::sync::Wait;
use std::thread::Threads;
use table_receipts::{Receipt, write_receipt};

/// Where a table is written and its receipt is put, and what the receipt says beside the run.
#[derive(Drop)]
pub struct Receipted<W, P> {
    pub out: W,
    pub made: MadeWith,
    pub place: P,
}

/// What of its inputs let a run end without a table: without some of them there may be one.
#[derive(Clone, Copy, Debug, PartialEq, Eq)]
pub enum Hindrance {
    /// A sum is too large.
    SumTooLarge,
    /// The inputs at these places, counted from 0, are the same, and have data records.
    InputTwice(usize, usize),
}

/// How a run ended, and where it wrote.
#[derive(Drop)]
pub struct Ended<W, P> {
    pub status: Status,
    /// If what the line of its fault tells is one of the inputs, this.
    pub hindrance: Option<Hindrance>,
    pub out: W,
    pub place: P,
}

/// Does as [`run_with`](crate::run_with), and puts a receipt after the table is written. If two inputs with data
/// records have the same octets, if memory runs out or the receipt can't be put, it ends with `Failed`, and `err` has
/// the line of that fault alone.
pub fn run_receipted<
    S: Source + Send + Drop,
    W: Write + Drop,
    P: ReceiptPlace + Drop,
    E: WriteLines,
    R: Threads + Wait + Sync,
>(
    rt: &R,
    alloc: Global,
    sources: Vec<S>,
    origins: &[Origin],
    job: &CollectJob,
    to: Receipted<W, P>,
    err: &mut E,
) -> Ended<W, P>
    ensures runs { RunsReceipted W.contents P.holds to result S.seen S.failure job.now
        (AreToldTo E.lines err.old err.new) sources.items origins.now }
    // It says so of its inputs exactly if that is the fault which it tells, and only where it is so.
    ensures hindered { IfSome result.hindrance (Hinders S.seen sources.items job.now origins.now) }
    ensures kept { StaysFailed E.lines err.old err.new }
{
    let run = match collect_hashed(rt, alloc, sources, origins, job) {
        Ok(run) => run,
        Err(failure) => {
            let _ = write_failure(job.verbosity, job.plan, origins, &failure, err);
            let Receipted { out, place, .. } = to;
            return Ended {
                status: Status::Failed,
                hindrance: hindrance_in(failure.fault),
                out,
                place,
            };
        }
    };
    let WrittenRun { out, place, answer } = write_run(alloc, job, origins, &run, to);
    if let Err(fault) = answer {
        let _ = write_run_fault(fault, err);
        return Ended {
            status: Status::Failed,
            hindrance: hindrance_of(fault),
            out,
            place,
        };
    }
    let _ = tell(job, origins, &run.gathered, err);
    let status = status_of(job, &run.gathered);
    Ended {
        status,
        hindrance: None,
        out,
        place,
    }
}

// What of the inputs a fault of collecting tells.
fn hindrance_in(fault: CollectFault) -> Option<Hindrance>
    ensures { result ≡ hindrance_in fault }
{
    match fault {
        CollectFault::SumTooLarge => Some(Hindrance::SumTooLarge),
        _ => None,
    }
}

// What of the inputs a fault of a table or of its receipt tells.
fn hindrance_of(fault: RunFault) -> Option<Hindrance>
    ensures { result ≡ hindrance_of fault }
{
    match fault {
        RunFault::Receipt(ReceiptFault::InputTwice(first, second)) => {
            Some(Hindrance::InputTwice(first, second))
        }
        _ => None,
    }
}

// Where a run wrote; and why not, if it didn't.
#[derive(Drop)]
struct WrittenRun<W, P> {
    out: W,
    place: P,
    answer: Result<(), RunFault>,
}

// Writes the table of a run, and puts its receipt.
fn write_run<S: Drop, W: Write + Drop, P: ReceiptPlace + Drop>(
    alloc: Global,
    job: &CollectJob,
    origins: &[Origin],
    run: &HashedRun<S>,
    to: Receipted<W, P>,
) -> WrittenRun<W, P>
    requires { FitsPlan job.now.plan.now run.now.gathered.run.table }
    ensures writes { OnOk result.answer (WritesRun job.now W.contents to.out result.out run.now) }
    ensures put { OnOk result.answer (IsPut (P.holds result.place) to.made job.now origins.now
        run.now.gathered.run.sessions.items run.now.gathered.sampling.items run.now.digests.items
        (W.contents to.out) run.now.gathered.run.table) }
    ensures fault { IfErr result.answer
        (NoneIsMade job.now origins.now run.now (result.out ≡ to.out)) }
{
    let Receipted {
        out,
        made,
        mut place,
    } = to;
    let MadeRun { out, answer } = make_run(alloc, job, origins, run, out, made);
    let answer = match answer {
        Ok(receipt) => put_text(alloc, &receipt, &mut place),
        Err(fault) => Err(fault),
    };
    WrittenRun { out, place, answer }
}

/// Puts the text of a receipt.
pub fn put_text<P: ReceiptPlace>(
    alloc: Global,
    receipt: &Receipt,
    place: &mut P,
) -> Result<(), RunFault>
    ensures put { OnOk result (P.holds place.new (receipt_text (receipt_value receipt.now))) }
    ensures fault { IfErr result IsOfReceipt }
{
    let Ok(text) = write_receipt(alloc, receipt) else {
        return Err(RunFault::Receipt(ReceiptFault::OutOfMemory));
    };
    match place.put(&text) {
        Ok(()) => Ok(()),
        Err(_) => Err(RunFault::Receipt(ReceiptFault::WriteFailed)),
    }
}
