//! What the receipts of a table and of its text say.

ghost use Rattle.std.specs.Prelude.{◌≡◌, IfErr, IfOk};
ghost use Rattle.std.specs.Bool.{OnFalse, OnTrue};
ghost use Rattle.table_receipts.specs.Texts.{receipt_text};
ghost use Rattle.table_receipts.specs.Values.{FitsReceipt, ReceiptValue, receipt_value};
ghost use Rattle.command_tables.specs.Receipts.{IsNoReceiptFor, IsNotCompared, SaysOther, SaysTheSame};

use report_writing::Reason;
use std::alloc::{AllocError, Global};
use table_receipts::{Receipt, ReceiptFault, read_receipt, write_receipt};

/// The receipt that octets are the text of.
pub fn receipt_in(alloc: Global, octets: &[u8]) -> Result<Receipt, Reason>
    ensures ok { IfOk result (λ receipt. receipt_text (receipt_value receipt) ≡ octets.now) }
    ensures back { (r : ReceiptValue) → FitsReceipt r → receipt_text r ≡ octets.now
        → IfOk result (λ receipt. receipt_value receipt ≡ r) }
    ensures reason { IfErr result (IsNoReceiptFor octets.now) }
{
    let Ok(text) = str::from_utf8(octets) else {
        return Err(Reason::NotValid);
    };
    match read_receipt(alloc, text) {
        Ok(receipt) => Ok(receipt),
        Err(ReceiptFault::OutOfMemory) => Err(Reason::OutOfMemory),
        Err(ReceiptFault::NotAReceipt) => Err(Reason::NotValid),
    }
}

/// Whether the receipt of a text says what that of a table does, but for its table and who made it.
pub(crate) fn says_the_same(alloc: Global, table: &[u8], text: &[u8]) -> Result<bool, Reason>
    ensures same { IfOk result (λ same. OnTrue same (SaysTheSame table.now text.now)) }
    ensures other { IfOk result (λ same. OnFalse same (SaysOther table.now text.now)) }
    ensures reason { IfErr result (IsNotCompared table.now text.now) }
{
    let own = receipt_in(alloc, table)?;
    let other = receipt_in(alloc, text)?;
    match write_with(alloc, own, other) {
        Ok(same) => Ok(same.as_slice() == text),
        Err(AllocError) => Err(Reason::OutOfMemory),
    }
}

// The text of a receipt with the table of another, and who made that.
fn write_with(alloc: Global, own: Receipt, other: Receipt) -> Result<Vec<u8>, AllocError>
    ensures { IfOk result (λ text. text.items ≡ receipt_text (record (receipt_value own)
        { collectd = (receipt_value other).collectd; table = (receipt_value other).table })) }
{
    let Receipt {
        collectd,
        table,
        ..
    } = other;
    write_receipt(
        alloc,
        &Receipt {
            collectd,
            table,
            ..own
        },
    )
}
