//! Making the receipt of a merged table.

ghost use Rattle.std.specs.Prelude.{◌≡◌, IfOk, List, map, option_map};
ghost use Rattle.flow_table.specs.Fitting.{FitsPlan};
ghost use Rattle.receipt_merging.specs.Judging.{AreMerged};
ghost use Rattle.receipt_merging.specs.Parts.{PartValue};
ghost use Rattle.table_receipts.specs.Values.{file_value, into_value, receipt_value};
ghost use Rattle.command_merge_receipts.specs.Receipts.{into_told, merged_receipt_of};

use crate::job::PartsJob;
use command_collect::{TextDigest, table_of};
use flow_table::FlatTable;
use receipt_merging::MergedParts;
use std::alloc::{AllocError, Global};
use table_receipts::{FileReceipt, MergedInto, Receipt, TableReceipt};

/// The receipt of the table of all parts, by the digest of its text.
pub fn make_merged_receipt(
    alloc: Global,
    job: &PartsJob,
    merged: MergedParts,
    text: TextDigest,
    table: &FlatTable,
) -> Result<Receipt, AllocError>
    requires { FitsPlan job.now.merge.plan.now table.now }
    ensures { (parts : List PartValue) → AreMerged parts merged
        → IfOk result (λ r. receipt_value r ≡ merged_receipt_of job.now parts text table.now) }
{
    let merge = &job.merge;
    let table = TableReceipt {
        into: copy_into(alloc, job.into)?,
        ..table_of(alloc, merge.elements, merge.plan, merge.output, text, table)?
    };
    let MergedParts {
        inputs,
        records,
        left_out,
        complete,
    } = merged;
    Ok(Receipt {
        collectd: String::from_str(alloc, job.collectd)?,
        plan: String::from_str(alloc, job.plan.text)?,
        elements: copy_files(alloc, job.plan.elements)?,
        maps: copy_files(alloc, job.plan.maps)?,
        inputs,
        records,
        table,
        left_out,
        complete,
    })
}

// Into what rows are merged, once more.
fn copy_into(alloc: Global, into: Option<&MergedInto>) -> Result<Option<MergedInto>, AllocError>
    ensures { IfOk result (λ copy. option_map into_value copy ≡ into_told into.entry) }
{
    match into {
        Some(into) => Ok(Some(MergedInto {
            interval: into.interval,
            zone: String::from_str(alloc, into.zone.as_str())?,
        })),
        None => Ok(None),
    }
}

// What a receipt says of files, once more.
fn copy_files(alloc: Global, files: &[FileReceipt]) -> Result<Vec<FileReceipt>, AllocError>
    ensures { IfOk result (λ copies. map file_value copies.items ≡ map file_value files.now) }
{
    let mut copies = Vec::with_capacity(alloc, files.len())?;
    let mut left = files;
    while let Some((file, later)) = left.split_first() {
        copies.push(copy_file(alloc, file)?)?;
        left = later;
    }
    Ok(copies)
}

fn copy_file(alloc: Global, file: &FileReceipt) -> Result<FileReceipt, AllocError>
    ensures { IfOk result (λ copy. file_value copy ≡ file_value file.now) }
{
    Ok(FileReceipt {
        name: String::from_str(alloc, file.name.as_str())?,
        octets: file.octets,
        sha256: file.sha256,
    })
}
