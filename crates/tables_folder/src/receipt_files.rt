//! The files that a receipt names.

ghost use Rattle.std.specs.Prelude.{◌≡◌, map, string_bytes, IfErr, IfOk};
ghost use Rattle.std.specs.Bool.{OnFalse, OnTrue};
ghost use Rattle.table_receipts.specs.Values.{input_value, receipt_value, table_value};
ghost use Rattle.period_tables.specs.Standing.{names_in, names_read, was_read as was_input_read};
ghost use Rattle.tables_folder.specs.ReceiptFiles.{AreFilesIn, AreNotIn, IsFilesOf, IsNotOf, IsNoReceiptOf, IsReceiptOf, tells_table};

use report_writing::Reason;
use sha2::{Digest, Sha256};
use std::alloc::{AllocError, Global};
use table_receipts::{InputReceipt, Receipt, ReceiptFault, TableReceipt, read_receipt};

/// The paths of the inputs of the receipt with this text, of a table under a plan with that text, but for those whose session
/// ended since a read failed or memory ran out; and then those of what was left out. If the text is no receipt, or one of another plan, it isn't valid.
pub fn files_in_receipt(alloc: Global, text: &str, plan: &str) -> Result<Vec<String>, Reason>
    ensures files { IfOk result (λ paths. IsFilesOf text.now plan.now paths.items) }
    ensures reason { IfErr result (IsNotOf text.now plan.now) }
{
    let receipt = match read_receipt(alloc, text) {
        Ok(receipt) => receipt,
        Err(ReceiptFault::OutOfMemory) => return Err(Reason::OutOfMemory),
        Err(ReceiptFault::NotAReceipt) => return Err(Reason::NotValid),
    };
    if receipt.plan.as_str() != plan {
        return Err(Reason::NotValid);
    }
    match all_names_of(alloc, receipt) {
        Ok(names) => Ok(names),
        Err(AllocError) => Err(Reason::OutOfMemory),
    }
}

/// The paths of the files that a receipt names, as [`files_in_receipt`] has them, if there is one.
pub(crate) fn files_in(
    alloc: Global,
    text: &Option<String>,
    plan: &str,
) -> Result<Option<Vec<String>>, Reason>
    ensures files { IfOk result (AreFilesIn text.now plan.now) }
    ensures reason { IfErr result (AreNotIn text.now plan.now) }
{
    match text {
        Some(text) => Ok(Some(files_in_receipt(alloc, text.as_str(), plan)?)),
        None => Ok(None),
    }
}

// The names of inputs that were read, and of those that were left out.
fn all_names_of(alloc: Global, receipt: Receipt) -> Result<Vec<String>, AllocError>
    ensures { IfOk result (λ names. map string_bytes names.items ≡ names_in (receipt_value receipt)) }
{
    let Receipt {
        inputs,
        mut left_out,
        ..
    } = receipt;
    let mut names = names_of(alloc, &inputs)?;
    names.append(&mut left_out)?;
    Ok(names)
}

// The names of inputs that were read.
fn names_of(alloc: Global, inputs: &[InputReceipt]) -> Result<Vec<String>, AllocError>
    ensures { IfOk result (λ names. map string_bytes names.items
        ≡ names_read (map input_value inputs.now)) }
{
    let mut names = Vec::new(alloc);
    let mut left = inputs;
    while let Some((input, rest)) = left.split_first() {
        if was_read(input) {
            names.push(input.file.name.clone()?)?;
        }
        left = rest;
    }
    Ok(names)
}

// Whether no read of an input failed, and memory didn't run out in it.
fn was_read(input: &InputReceipt) -> bool
    ensures { result ≡ was_input_read (input_value input.now) }
{
    match &input.fault {
        Some(fault) => fault.as_str() != "ReadFailed" && fault.as_str() != "OutOfMemory",
        None => true,
    }
}

/// Whether this text is the receipt of a table, by the table's octets and their SHA-256.
pub(crate) fn is_receipt_of(alloc: Global, text: &str, table: &[u8]) -> Result<bool, AllocError>
    ensures is { IfOk result (λ is. OnTrue is (IsReceiptOf text.now table.now)) }
    ensures none { IfOk result (λ is. OnFalse is (IsNoReceiptOf text.now table.now)) }
{
    match read_receipt(alloc, text) {
        Ok(receipt) => Ok(tells(&receipt.table, table)),
        Err(ReceiptFault::NotAReceipt) => Ok(false),
        Err(ReceiptFault::OutOfMemory) => Err(AllocError),
    }
}

fn tells(said: &TableReceipt, table: &[u8]) -> bool
    ensures { result ≡ tells_table (table_value said.now) table.now }
{
    table.len() as u64 == said.octets && Sha256::digest(table) == said.sha256
}
