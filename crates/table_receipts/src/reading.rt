//! Reading a receipt.

ghost use Rattle.std.specs.Prelude.{◌≡◌, ◌≢◌, None, Some, Err, IfOk};
ghost use Rattle.json.specs.Json.{document};
ghost use Rattle.json.specs.Value.{value_view};
ghost use Rattle.table_receipts.specs.ReadBack.{ReadsBack};
ghost use Rattle.table_receipts.specs.Values.{FitsReceipt, ReceiptValue, receipt_value};
ghost use Rattle.table_receipts.specs.Texts.{receipt_text};

use crate::fault::ReceiptFault;
use crate::part_reading::receipt_of;
use crate::receipt::Receipt;
use crate::writing::write_receipt;
use json::{Error, Scratch, Value};
use std::alloc::Global;

// The value of a text in JSON.
fn parse<'a>(
    alloc: Global,
    text: &'a str,
    scratch: &'a mut Scratch,
) -> Result<Value<'a>, ReceiptFault>
    ensures ok { IfOk result (λ value. document text.now ≡ Some (value_view value)) }
    ensures none { result ≡ Err ReceiptFault.NotAReceipt → document text.now ≡ None }
{
    match Value::parse(alloc, text, scratch) {
        Ok(value) => Ok(value),
        Err(Error::Invalid) => Err(ReceiptFault::NotAReceipt),
        Err(_) => Err(ReceiptFault::OutOfMemory),
    }
}

/// Reads a receipt from its text. `NotAReceipt` is a text that no receipt has: of another form or
/// version, damaged, or changed at any octet.
pub fn read_receipt(alloc: Global, text: &str) -> Result<Receipt, ReceiptFault>
    // Only the receipt's own text is read.
    ensures own { IfOk result (λ receipt. receipt_text (receipt_value receipt) ≡ text.now) }
    // The text of a receipt reads back to its value.
    ensures back { ReadsBack result receipt_value FitsReceipt (λ r. receipt_text r ≡ text.now) }
    // What is refused is the text of no receipt.
    ensures none { (r : ReceiptValue) → FitsReceipt r → receipt_text r ≡ text.now
        → result ≢ Err ReceiptFault.NotAReceipt }
{
    let mut scratch = Scratch::new(alloc);
    let value = parse(alloc, text, &mut scratch)?;
    let Ok(receipt) = receipt_of(alloc, &value) else {
        return Err(ReceiptFault::OutOfMemory);
    };
    let Ok(own) = write_receipt(alloc, &receipt) else {
        return Err(ReceiptFault::OutOfMemory);
    };
    if own.as_slice() == text.as_bytes() {
        Ok(receipt)
    } else {
        Err(ReceiptFault::NotAReceipt)
    }
}
