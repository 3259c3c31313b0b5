//! The text of the table of a period.

ghost use Rattle.std.specs.Prelude.{◌≡◌, IfErr, IfOk, Some, None, MatchOption};
ghost use Rattle.std.specs.Bool.{OnFalse, OnTrue};
ghost use Rattle.table_receipts.specs.Texts.{receipt_text};
ghost use Rattle.table_receipts.specs.Values.{receipt_value};
ghost use Rattle.command_tables.specs.Outcomes.{IsDueOutcome, IsMadeOf, IsNotMadeOf, IsNotSettled, IsTextOutcome, StandsFor, StandsNot};

use super::fault::TextFault;
use super::job::TextJob;
use super::making::{MadeText, make_text};
use super::receipts::{receipt_in, says_the_same};
use period_tables::TablePlace;
use recording_names::Period;
use report_writing::Reason;
use std::alloc::Global;

/// What became of the text of a period's table.
#[derive(Debug, Drop)]
pub enum TextOutcome {
    /// The period has no table.
    NoTable,
    /// The text that there is is that of the table, by its receipt.
    UpToDate,
    /// It was made of the table.
    Made,
    /// The receipt of the table, or that of the text, can't be read.
    NotRead(Reason),
    NotMade(TextFault),
    /// The text or its receipt couldn't be put.
    NotPut(Reason),
}

/// Makes the text of a period's table in IPFIX that stands in `tables`, and puts it into `texts`, unless the one there is of
/// that table: its receipt says what that of the table does.
pub fn take_text<T: TablePlace>(
    alloc: Global,
    job: &TextJob,
    tables: &T,
    texts: &mut T,
    period: Period,
) -> TextOutcome
    ensures { IsTextOutcome T.seen
        job.now period.begins result tables.now texts.old texts.new }
{
    let own = match tables.standing_receipt(period) {
        Ok(Some(own)) => own,
        Ok(None) => return TextOutcome::NoTable,
        Err(reason) => return TextOutcome::NotRead(reason),
    };
    match is_up_to_date(alloc, &own, texts, period) {
        Ok(true) => TextOutcome::UpToDate,
        Ok(false) => make_due(alloc, job, &own, tables, texts, period),
        Err(reason) => TextOutcome::NotRead(reason),
    }
}

// Whether the text that there is is of the table that has this receipt.
fn is_up_to_date<T: TablePlace>(
    alloc: Global,
    own: &[u8],
    texts: &T,
    period: Period,
) -> Result<bool, Reason>
    ensures is { IfOk result (λ is. OnTrue is (StandsFor T.seen own.now period.begins texts.now)) }
    ensures other { IfOk result (λ is. OnFalse is (StandsNot T.seen own.now period.begins texts.now)) }
    ensures reason { IfErr result
        (IsNotSettled T.seen own.now period.begins texts.now) }
{
    match texts.standing_receipt(period)? {
        Some(text) => says_the_same(alloc, own, &text),
        None => Ok(false),
    }
}

// Makes the text of the table that has this receipt, and puts it.
fn make_due<T: TablePlace>(
    alloc: Global,
    job: &TextJob,
    own: &[u8],
    tables: &T,
    texts: &mut T,
    period: Period,
) -> TextOutcome
    ensures { IsDueOutcome T.seen
        job.now own.now period.begins result tables.now texts.old texts.new }
{
    let made = match make_of(alloc, job, own, tables, period) {
        Ok(made) => made,
        Err(fault) => return TextOutcome::NotMade(fault),
    };
    match texts.put(period, &made.text, &made.receipt) {
        Ok(()) => TextOutcome::Made,
        Err(reason) => TextOutcome::NotPut(reason),
    }
}

// Makes the text of the table that has this receipt.
fn make_of<T: TablePlace>(
    alloc: Global,
    job: &TextJob,
    own: &[u8],
    tables: &T,
    period: Period,
) -> Result<MadeText, TextFault>
    ensures ok { IfOk result (IsMadeOf T.seen job.now own.now period.begins tables.now) }
    ensures fault { IfErr result (IsNotMadeOf T.seen job.now own.now period.begins tables.now) }
{
    let receipt = match receipt_in(alloc, own) {
        Ok(receipt) => receipt,
        Err(reason) => return Err(TextFault::NotRead(reason)),
    };
    match tables.standing_table(period) {
        Ok(octets) => make_text(alloc, job, receipt, &octets),
        Err(reason) => Err(TextFault::NotRead(reason)),
    }
}
