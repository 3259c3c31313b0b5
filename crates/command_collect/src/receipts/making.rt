//! Making the receipt of a run.

ghost use Rattle.std.specs.Prelude.{◌↔◌, IfOk, IsTrue};
ghost use Rattle.flow_table.specs.Fitting.{FitsPlan};
ghost use Rattle.command_collect.specs.Made.{IsComplete, IsReceiptWith};

use crate::ending::leaves_nothing_out;
use crate::gathered::Gathered;
use crate::job::CollectJob;
use crate::receipts::hashed_table::TextDigest;
use crate::receipts::table_part::{counts_of, table_of};
use flow_estimates::SamplingReport;
use flow_table::FlatTable;
use ipfix_session::FullReport;
use std::alloc::{AllocError, Global};
use table_receipts::{FileReceipt, InputReceipt, Receipt};

/// Who makes a table, under which plan, and without which inputs.
#[derive(Drop)]
pub struct MadeWith {
    /// The version of collectd, as `1.2.3`.
    pub collectd: String,
    /// The text of the plan.
    pub plan: String,
    /// The files of elements, in the order in which they were given.
    pub elements: Vec<FileReceipt>,
    /// The file of each map of the plan, in the plan's order.
    pub maps: Vec<FileReceipt>,
    /// The names of the inputs that were left out, since their sums were too large, in the order in which they went.
    pub left_out: Vec<String>,
}

/// What a receipt says beside what was collected.
#[derive(Drop)]
pub struct Contents {
    pub made: MadeWith,
    /// What it was made of.
    pub inputs: Vec<InputReceipt>,
    /// The digest of its text.
    pub text: TextDigest,
}

/// The receipt of the table of what was collected.
pub fn make_receipt<S: Drop>(
    alloc: Global,
    contents: Contents,
    job: &CollectJob,
    gathered: &Gathered<S>,
) -> Result<Receipt, AllocError>
    requires { FitsPlan job.now.plan.now gathered.now.run.table }
    ensures { IfOk result (IsReceiptWith contents job.now gathered.now) }
{
    let Contents { made, inputs, text } = contents;
    let reports = &gathered.run.sessions;
    let sampling = &gathered.sampling;
    let table = &gathered.run.table;
    let table_part = table_of(alloc, job.elements, job.plan, job.output, text, table)?;
    let MadeWith {
        collectd,
        plan,
        elements,
        maps,
        left_out,
    } = made;
    let complete = is_complete(job.is_scaled(), reports, sampling, table, &left_out);
    Ok(Receipt {
        collectd,
        plan,
        elements,
        maps,
        inputs,
        records: counts_of(table.tally()),
        table: table_part,
        left_out,
        complete,
    })
}

// Whether a strict run of these sessions would end well, and nothing was left out.
#[tactic(auto, using(crate::proofs::Complete::never_complete, crate::proofs::Complete::complete_if_empty))]
fn is_complete(
    is_scaled: bool,
    reports: &[FullReport],
    sampling: &[SamplingReport],
    table: &FlatTable,
    left_out: &[String],
) -> bool
    ensures { IsTrue result ↔ IsComplete is_scaled reports.now sampling.now table.now left_out.now }
{
    if !leaves_nothing_out(is_scaled, reports, sampling, table) {
        return false;
    }
    left_out.is_empty()
}
