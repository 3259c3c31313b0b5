//! The table of a run, and its receipt.

ghost use Rattle.std.specs.Prelude.{◌≡◌, Err, IfErr, IfOk, OnOk};
ghost use Rattle.flow_table.specs.Fitting.{FitsPlan};
ghost use Rattle.command_collect.specs.Made.{IsReceiptWith};
ghost use Rattle.command_collect.specs.HashedRuns.{IsMadeOfRun, NoneIsMade, WritesRun};
ghost use Rattle.command_collect.specs.ReceiptedRuns.{IsOfReceipt};

use crate::gathered::Gathered;
use crate::job::CollectJob;
use crate::receipts::collecting::HashedRun;
use crate::receipts::fault::{ReceiptFault, RunFault};
use crate::receipts::hashed_table::{WrittenTable, export_hashed};
use crate::receipts::inputs::inputs_of;
use crate::receipts::making::{Contents, MadeWith, make_receipt};
use flow_export::{AnyTable, Intervals};
use receipt_merging::first_twice;
use report_writing::Origin;
use std::alloc::{AllocError, Global};
use std::io::Write;
use table_receipts::Receipt;

/// Where the table of a run was written, and its receipt, or why it has none.
#[derive(Drop)]
pub struct MadeRun<W> {
    pub out: W,
    pub answer: Result<Receipt, RunFault>,
}

/// Writes the table of a run, and makes its receipt.
pub fn make_run<S: Drop, W: Write + Drop>(
    alloc: Global,
    job: &CollectJob,
    origins: &[Origin],
    run: &HashedRun<S>,
    out: W,
    made: MadeWith,
) -> MadeRun<W>
    requires { FitsPlan job.now.plan.now run.now.gathered.run.table }
    ensures writes { OnOk result.answer (WritesRun job.now W.contents out result.out run.now) }
    ensures made { IfOk result.answer
        (IsMadeOfRun job.now made origins.now run.now (W.contents out)) }
    ensures not_made { IfErr result.answer
        (NoneIsMade job.now origins.now run.now (result.out ≡ out)) }
{
    let collected = &run.gathered.run;
    let inputs = match inputs_of(alloc, job, origins, &collected.sessions, &run.digests) {
        Ok(inputs) => inputs,
        Err(AllocError) => return without_receipt(out, ReceiptFault::OutOfMemory),
    };
    match first_twice(alloc, &inputs) {
        Ok(None) => {}
        Ok(Some((first, second))) => {
            return without_receipt(out, ReceiptFault::InputTwice(first, second));
        }
        Err(AllocError) => return without_receipt(out, ReceiptFault::OutOfMemory),
    }
    let rows = AnyTable::Flat(&collected.table, Intervals::OfPlan);
    let WrittenTable { out, answer } = export_hashed(
        alloc,
        job.elements,
        job.plan,
        &rows,
        job.output,
        out,
    );
    match answer {
        Ok(text) => {
            let contents = Contents { made, inputs, text };
            let answer = receipt_of(alloc, job, &run.gathered, contents);
            MadeRun { out, answer }
        }
        Err(fault) => MadeRun {
            out,
            answer: Err(RunFault::Export(fault)),
        },
    }
}

fn without_receipt<W>(out: W, fault: ReceiptFault) -> MadeRun<W>
    ensures out { result.out ≡ out }
    ensures fault { result.answer ≡ Err (RunFault.Receipt fault) }
{
    MadeRun {
        out,
        answer: Err(RunFault::Receipt(fault)),
    }
}

// The receipt of what was collected.
fn receipt_of<S: Drop>(
    alloc: Global,
    job: &CollectJob,
    gathered: &Gathered<S>,
    contents: Contents,
) -> Result<Receipt, RunFault>
    requires { FitsPlan job.now.plan.now gathered.now.run.table }
    ensures made { IfOk result (IsReceiptWith contents job.now gathered.now) }
    ensures fault { IfErr result IsOfReceipt }
{
    match make_receipt(alloc, contents, job, gathered) {
        Ok(receipt) => Ok(receipt),
        Err(AllocError) => Err(RunFault::Receipt(ReceiptFault::OutOfMemory)),
    }
}
