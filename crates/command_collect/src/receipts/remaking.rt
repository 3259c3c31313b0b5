//! Making a table again, with its receipt.

ghost use Rattle.std.specs.Prelude.{◌≡◌, IfErr, IfOk, [], Some};
ghost use Rattle.flow_table.specs.Fitting.{FitsPlan};
ghost use Rattle.command_collect.specs.Remade.{IsNotRemade, IsRemade};
ghost use Rattle.command_collect.specs.HashedRuns.{IsMadeOfRun, NoneIsMade};
ghost use Rattle.command_collect.specs.Jobs.{job_text};

use crate::job::CollectJob;
use crate::receipts::collecting::{HashedRun, collect_hashed};
use crate::receipts::fault::RunFault;
use crate::receipts::made_run::{MadeRun, make_run};
use crate::receipts::making::MadeWith;
use flow_collect::CollectFault;
use ipfix_session::Source;
use report_writing::Origin;
use std::alloc::Global;
use std::sync::Wait;
use std::thread::Threads;
use table_receipts::Receipt;

/// A table that was made again: its text, and its receipt.
#[derive(Drop)]
pub struct Remade {
    pub text: Vec<u8>,
    pub receipt: Receipt,
}

/// Why a table wasn't made again.
#[derive(Clone, Copy, Debug, PartialEq, Eq)]
pub enum RemakeFault {
    /// Its sources couldn't be collected from.
    Collect(CollectFault),
    /// There was no memory for its text, or it has no receipt.
    Run(RunFault),
}

/// Does as [`run_receipted`](crate::run_receipted), and answers the text of the table and its receipt; nothing is told or
/// put.
pub fn remake<S: Source + Send + Drop, R: Threads + Wait + Sync>(
    rt: &R,
    alloc: Global,
    sources: Vec<S>,
    origins: &[Origin],
    job: &CollectJob,
    made: MadeWith,
) -> Result<Remade, RemakeFault>
    ensures remade { IfOk result (IsRemade S.seen job.now made sources.items origins.now) }
    ensures fault { IfErr result (IsNotRemade S.seen job.now sources.items origins.now) }
{
    let run = match collect_hashed(rt, alloc, sources, origins, job) {
        Ok(run) => run,
        Err(failure) => return Err(RemakeFault::Collect(failure.fault)),
    };
    match remake_run(alloc, job, origins, &run, made) {
        Ok(remade) => Ok(remade),
        Err(fault) => Err(RemakeFault::Run(fault)),
    }
}

// The text of the table of a run, and its receipt.
fn remake_run<S: Drop>(
    alloc: Global,
    job: &CollectJob,
    origins: &[Origin],
    run: &HashedRun<S>,
    made: MadeWith,
) -> Result<Remade, RunFault>
    requires { FitsPlan job.now.plan.now run.now.gathered.run.table }
    ensures text { IfOk result (λ m.
        m.text.items ≡ job_text job.now run.now.gathered.run.table) }
    ensures made { IfOk result (λ m.
        IsMadeOfRun job.now made origins.now run.now (Some []) m.receipt) }
    ensures not_made { IfErr result (NoneIsMade job.now origins.now run.now (Unit {0})) }
{
    let MadeRun { out, answer } = make_run(alloc, job, origins, run, Vec::new(alloc), made);
    match answer {
        Ok(receipt) => Ok(Remade { text: out, receipt }),
        Err(fault) => Err(fault),
    }
}
