//! What the receipts of parts say together, beside that of a day.

ghost use Rattle.std.specs.Prelude.{◌≡◌, List, IfErr, IfOk, string_bytes};
ghost use Rattle.receipt_merging.specs.Judging.{AreMerged};
ghost use Rattle.receipt_merging.specs.Parts.{PartValue};
ghost use Rattle.table_receipts.specs.Texts.{receipt_text};
ghost use Rattle.table_receipts.specs.Values.{receipt_value};
ghost use Rattle.command_tables.specs.Receipts.{IsNoReceiptFor};
ghost use Rattle.command_tables.specs.SaidTogether.{IsLacking, IsSettled, said_together};

use super::gone_inputs::first_gone;
use super::standing::Standing;
use crate::texts::receipt_in;
use receipt_merging::MergedParts;
use report_writing::Reason;
use std::alloc::{AllocError, Global};
use table_receipts::{InputReceipt, Receipt, write_receipt};

/// How the receipt of this text stands to those that say this together.
pub(crate) fn settle(alloc: Global, own: &[u8], merged: MergedParts) -> Result<Standing, Reason>
    ensures ok { (all : List PartValue) → AreMerged all merged → IfOk result (IsSettled own.now all) }
    ensures reason { IfErr result (IsNoReceiptFor own.now) }
{
    let receipt = receipt_in(alloc, own)?;
    if let Some(gone) = first_gone(&receipt.inputs, &merged.inputs, &merged.left_out) {
        return lacking(alloc, gone);
    }
    match write_together(alloc, receipt, merged) {
        Ok(text) if text.as_slice() == own => Ok(Standing::Theirs),
        Ok(_) => Ok(Standing::Others),
        Err(AllocError) => Err(Reason::OutOfMemory),
    }
}

// A receipt has this input, and theirs don't.
fn lacking(alloc: Global, input: &InputReceipt) -> Result<Standing, Reason>
    ensures ok { IfOk result (IsLacking (string_bytes input.now.file.name)) }
    ensures reason { IfErr result (λ reason. reason ≡ Reason.OutOfMemory) }
{
    match String::from_str(alloc, input.file.name.as_str()) {
        Ok(name) => Ok(Standing::Lacking(name)),
        Err(AllocError) => Err(Reason::OutOfMemory),
    }
}

// The text of a receipt that says this in place of its own.
fn write_together(alloc: Global, own: Receipt, merged: MergedParts) -> Result<Vec<u8>, AllocError>
    ensures { (parts : List PartValue) → AreMerged parts merged → IfOk result (λ text.
        text.items ≡ receipt_text (said_together parts (receipt_value own))) }
{
    let MergedParts {
        inputs,
        records,
        left_out,
        complete,
    } = merged;
    write_receipt(
        alloc,
        &Receipt {
            inputs,
            records,
            left_out,
            complete,
            ..own
        },
    )
}
