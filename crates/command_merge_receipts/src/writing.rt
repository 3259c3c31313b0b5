//! Writing the merged table, and putting its receipt.

ghost use Rattle.std.specs.Prelude.{◌≡◌, IfErr, List, None, OnOk, Some};
ghost use Rattle.flow_table.specs.Fitting.{FitsPlan};
ghost use Rattle.receipt_merging.specs.Judging.{AreMerged};
ghost use Rattle.receipt_merging.specs.Parts.{PartValue};
ghost use Rattle.table_receipts.specs.Texts.{receipt_text};
ghost use Rattle.command_collect.specs.ReceiptedRuns.{IsOfReceipt};
ghost use Rattle.command_merge_receipts.specs.Receipts.{IsNotDone, IsReceipted, IsWritten, merged_receipt_of};

use crate::job::{MergedTo, PartsJob};
use crate::receipt::make_merged_receipt;
use command_collect::{
    ReceiptFault, ReceiptPlace, RunFault, TextDigest, WrittenTable, export_hashed, put_text,
};
use flow_export::AnyTable;
use flow_table::FlatTable;
use output_tables::export;
use receipt_merging::MergedParts;
use std::alloc::{AllocError, Global};
use std::io::Write;

/// Where a merged table was written; and why it wasn't, or why its receipt wasn't put.
#[derive(Drop)]
pub struct WrittenMerge<W, P> {
    pub to: MergedTo<W, P>,
    pub answer: Result<(), RunFault>,
}

/// Writes the merged table, and then puts its receipt, if there is a place for one.
pub fn write_merge<W: Write + Drop, P: ReceiptPlace + Drop>(
    alloc: Global,
    job: &PartsJob,
    merged: MergedParts,
    table: &FlatTable,
    to: MergedTo<W, P>,
) -> WrittenMerge<W, P>
    requires { FitsPlan job.now.merge.plan.now table.now }
    ensures written { OnOk result.answer
        (IsWritten W.contents job.now table.now to.out result.to.out) }
    ensures receipted { (parts : List PartValue) → AreMerged parts merged → OnOk result.answer
        (IsReceipted W.contents P.holds job.now table.now to result.to parts) }
    ensures err { IfErr result.answer
        (IsNotDone W.contents job.now table.now to.out to.place result.to) }
{
    let MergedTo { out, place } = to;
    match place {
        Some(place) => write_with_receipt(alloc, job, merged, table, out, place),
        None => write_alone(alloc, job, table, out),
    }
}

// Writes the table alone.
fn write_alone<W: Write + Drop, P: ReceiptPlace + Drop>(
    alloc: Global,
    job: &PartsJob,
    table: &FlatTable,
    out: W,
) -> WrittenMerge<W, P>
    requires { FitsPlan job.now.merge.plan.now table.now }
    ensures place { result.to.place ≡ None }
    ensures written { OnOk result.answer
        (IsWritten W.contents job.now table.now out result.to.out) }
    ensures err { IfErr result.answer
        (IsNotDone W.contents job.now table.now out None result.to) }
{
    let merge = &job.merge;
    let rows = AnyTable::Flat(table, merge.intervals);
    let mut out = out;
    let exported = export(
        alloc,
        merge.elements,
        merge.plan,
        &rows,
        merge.output,
        &mut out,
    );
    let answer = match exported {
        Ok(()) => Ok(()),
        Err(fault) => Err(RunFault::Export(fault)),
    };
    let to = MergedTo { out, place: None };
    WrittenMerge { to, answer }
}

// Writes the table, and then puts its receipt.
fn write_with_receipt<W: Write + Drop, P: ReceiptPlace + Drop>(
    alloc: Global,
    job: &PartsJob,
    merged: MergedParts,
    table: &FlatTable,
    out: W,
    place: P,
) -> WrittenMerge<W, P>
    requires { FitsPlan job.now.merge.plan.now table.now }
    ensures written { OnOk result.answer
        (IsWritten W.contents job.now table.now out result.to.out) }
    ensures receipted { (parts : List PartValue) → AreMerged parts merged → OnOk result.answer
        (IsReceipted W.contents P.holds job.now table.now
        (record { out = out; place = Some place }) result.to parts) }
    ensures err { IfErr result.answer
        (IsNotDone W.contents job.now table.now out (Some place) result.to) }
{
    let merge = &job.merge;
    let rows = AnyTable::Flat(table, merge.intervals);
    let WrittenTable { out, answer } = export_hashed(
        alloc,
        merge.elements,
        merge.plan,
        &rows,
        merge.output,
        out,
    );
    let mut place = place;
    let answer = match answer {
        Ok(text) => put_receipt(alloc, job, merged, text, table, &mut place),
        Err(fault) => Err(RunFault::Export(fault)),
    };
    let to = MergedTo {
        out,
        place: Some(place),
    };
    WrittenMerge { to, answer }
}

// Puts the receipt of the table, by the digest of its text.
fn put_receipt<P: ReceiptPlace>(
    alloc: Global,
    job: &PartsJob,
    merged: MergedParts,
    text: TextDigest,
    table: &FlatTable,
    place: &mut P,
) -> Result<(), RunFault>
    requires { FitsPlan job.now.merge.plan.now table.now }
    ensures put { (parts : List PartValue) → AreMerged parts merged → OnOk result
        (P.holds place.new (receipt_text (merged_receipt_of job.now parts text table.now))) }
    ensures fault { IfErr result IsOfReceipt }
{
    match make_merged_receipt(alloc, job, merged, text, table) {
        Ok(receipt) => put_text(alloc, &receipt, place),
        Err(AllocError) => Err(RunFault::Receipt(ReceiptFault::OutOfMemory)),
    }
}
