//! Making the text of a table, and the receipt of that.

ghost use Rattle.std.specs.Prelude.{◌≡◌, ◌↔◌, IfErr, IfOk, IsErrOf, IsTrue, length};
ghost use Rattle.flow_table.specs.AddedUp.{rows_in};
ghost use Rattle.flow_table.specs.Fitting.{FitsPlan};
ghost use Rattle.output_tables.specs.TableTexts.{IsTooMany};
ghost use Rattle.table_receipts.specs.Values.{receipt_value, table_value};
ghost use Rattle.command_tables.specs.Texts.{IsNotMade, IsSaid, IsTextOf, receipt_with, table_text};

use super::fault::TextFault;
use super::job::TextJob;
use super::merged::table_in;
use command_collect::{TextDigest, table_of};
use flow_export::{AnyTable, ExportFault, Intervals};
use flow_merge::MergeFault;
use flow_table::FlatTable;
use output_tables::export;
use sha2::{Digest, Sha256};
use std::alloc::{AllocError, Global};
use table_parts::has_plan;
use table_receipts::{Receipt, TableReceipt, write_receipt};

/// A text of a table, and that of its receipt.
#[derive(Drop)]
pub(crate) struct MadeText {
    pub text: Vec<u8>,
    pub receipt: Vec<u8>,
}

/// Makes the text of a table with this receipt, of its octets.
pub(crate) fn make_text(
    alloc: Global,
    job: &TextJob,
    own: Receipt,
    octets: &[u8],
) -> Result<MadeText, TextFault>
    ensures ok { IfOk result (IsTextOf job.now (receipt_value own) octets.now) }
    ensures fault { IfErr result (IsNotMade job.now (receipt_value own) octets.now) }
{
    if !has_plan(&job.at_hand, &own) {
        return Err(TextFault::OtherPlan);
    }
    if !is_said(&own.table, octets) {
        return Err(TextFault::NotItsTable);
    }
    let table = match table_in(alloc, job.plan, octets) {
        Ok(table) => table,
        Err(MergeFault::OutOfMemory) => return Err(TextFault::OutOfMemory),
        Err(fault) => return Err(TextFault::NotMerged(fault)),
    };
    let text = match text_of(alloc, job, &table) {
        Ok(text) => text,
        Err(fault) => return Err(TextFault::NotWritten(fault)),
    };
    match receipt_of(alloc, job, own, &text, &table) {
        Ok(receipt) => Ok(MadeText { text, receipt }),
        Err(AllocError) => Err(TextFault::OutOfMemory),
    }
}

// Whether octets are those of a table, as its receipt says it.
fn is_said(said: &TableReceipt, octets: &[u8]) -> bool
    ensures { IsTrue result ↔ IsSaid (table_value said.now) octets.now }
{
    said.octets == octets.len() as u64 && said.sha256 == Sha256::digest(octets)
}

// The text of a table.
fn text_of(alloc: Global, job: &TextJob, table: &FlatTable) -> Result<Vec<u8>, ExportFault>
    requires { FitsPlan job.now.plan.now table.now }
    ensures ok { IfOk result (λ text. text.items ≡ table_text job.now table.now) }
    ensures many { IsErrOf result ExportFault.TooManyRows
        ↔ IsTooMany job.now.output.format (length (rows_in table.now)) }
{
    let rows = AnyTable::Flat(table, Intervals::OfPlan);
    let mut text = Vec::new(alloc);
    match export(alloc, job.elements, job.plan, &rows, job.output, &mut text) {
        Ok(()) => Ok(text),
        Err(fault) => Err(fault),
    }
}

// The text of the receipt of a text of this table: it says of the rest what that of the table does.
fn receipt_of(
    alloc: Global,
    job: &TextJob,
    own: Receipt,
    text: &[u8],
    table: &FlatTable,
) -> Result<Vec<u8>, AllocError>
    requires { FitsPlan job.now.plan.now table.now }
    ensures { IfOk result (λ r. r.items ≡ receipt_with job.now text.now table.now (receipt_value own)) }
{
    let digest = TextDigest {
        octets: text.len() as u64,
        sha256: Sha256::digest(text),
    };
    let receipt = Receipt {
        collectd: String::from_str(alloc, job.collectd)?,
        table: table_of(alloc, job.elements, job.plan, job.output, digest, table)?,
        ..own
    };
    write_receipt(alloc, &receipt)
}
