//! Reading the receipts of parts.

ghost use Rattle.std.specs.Prelude.{◌≡◌, ◌↔◌, IfErr, IfOk, IsTrue};
ghost use Rattle.table_receipts.specs.Texts.{receipt_text};
ghost use Rattle.table_receipts.specs.Values.{receipt_value};
ghost use Rattle.receipt_merging.specs.Parts.{part_value};
ghost use Rattle.table_parts.specs.Parts.{AreParts, HasPlan, IsFaultOf, IsNotRead, IsPart, LacksPart, part_values};

use crate::files::PartFiles;
use crate::plan::{PlanAtHand, has_plan};
use input_files::ReadText;
use receipt_merging::Part;
use report_writing::Reason;
use std::alloc::Global;
use table_receipts::{Receipt, ReceiptFault, read_receipt};

/// Why receipts of parts weren't read.
#[derive(Clone, Copy)]
pub enum NotRead<'a> {
    OutOfMemory,
    /// The receipt of the part of this number, counted from 1, can't be had, for the reason; or it is no receipt.
    Receipt(usize, PartFiles<'a>, Option<Reason>),
}

/// Reads the receipts of parts, in their order, up to the first that can't be had or is none.
pub fn read_parts<'a, T: ReadText>(
    texts: &T,
    alloc: Global,
    all: &[PartFiles<'a>],
    plan: &PlanAtHand,
) -> Result<Vec<Part>, NotRead<'a>>
    ensures read { IfOk result
        (λ had. AreParts (T.has texts.now) plan.now all.now (part_values had)) }
    ensures unread { IfErr result (IsNotRead (T.has texts.now) (T.refuses texts.now) plan.now all.now) }
{
    let Ok(mut parts) = Vec::with_capacity(alloc, all.len()) else {
        return Err(NotRead::OutOfMemory);
    };
    for (place, files) in all.iter().enumerate() {
        match read_part(texts, alloc, files, plan) {
            Ok(part) => match parts.push(part) {
                Ok(()) => {}
                Err(_) => return Err(NotRead::OutOfMemory),
            },
            Err(Lack::OutOfMemory) => return Err(NotRead::OutOfMemory),
            Err(Lack::Receipt(why)) => return Err(NotRead::Receipt(place + 1, *files, why)),
        }
    }
    Ok(parts)
}

/// Why a receipt wasn't read: there was no memory; or it can't be had, for the reason, or is none.
#[derive(Clone, Copy)]
pub enum Lack {
    OutOfMemory,
    Receipt(Option<Reason>),
}

// Reads the receipt of a part.
fn read_part<T: ReadText>(
    texts: &T,
    alloc: Global,
    files: &PartFiles,
    plan: &PlanAtHand,
) -> Result<Part, Lack>
    ensures read { IfOk result (λ part. IsPart (T.has texts.now) plan.now files.now (part_value part)) }
    ensures lacks { IfErr result (LacksPart (T.has texts.now) (T.refuses texts.now) files.now) }
{
    let octets = match texts.read_text(alloc, files.receipt) {
        Ok(octets) => octets,
        Err(reason) => return Err(Lack::Receipt(Some(reason))),
    };
    match receipt_in(alloc, &octets) {
        Ok(receipt) => Ok(part_of(receipt, plan)),
        Err(ReceiptFault::OutOfMemory) => Err(Lack::OutOfMemory),
        Err(ReceiptFault::NotAReceipt) => Err(Lack::Receipt(None)),
    }
}

fn part_of(receipt: Receipt, plan: &PlanAtHand) -> Part
    ensures receipt { result.receipt ≡ receipt }
    ensures plan { IsTrue result.has_plan ↔ HasPlan plan.now (receipt_value receipt) }
{
    let has_plan = has_plan(plan, &receipt);
    Part { receipt, has_plan }
}

// The receipt that octets are the text of.
fn receipt_in(alloc: Global, octets: &[u8]) -> Result<Receipt, ReceiptFault>
    ensures ok { IfOk result (λ receipt. receipt_text (receipt_value receipt) ≡ octets.now) }
    ensures fault { IfErr result (IsFaultOf octets.now) }
{
    match str::from_utf8(octets) {
        Ok(text) => read_receipt(alloc, text),
        Err(_) => Err(ReceiptFault::NotAReceipt),
    }
}
