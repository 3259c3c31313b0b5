//! Comparing a table with its receipt.

ghost use Rattle.std.specs.Prelude.{◌≡◌, IfErr, IfOk};
ghost use Rattle.report_writing.specs.Lines.{StaysFailed};
ghost use Rattle.report_writing.specs.Told.{AreToldTo};
ghost use Rattle.table_receipts.specs.Texts.{receipt_text};
ghost use Rattle.table_receipts.specs.Values.{receipt_value};
ghost use Rattle.command_verify.specs.Again.{RunsVerify};
ghost use Rattle.command_verify.specs.Verified.{IsFaultOf};

use crate::comparing::compare_files;
use crate::telling::tell_fault;
use element_registry::Elements;
use input_files::ReadText;
use input_sources::OpenSource;
use ipfix_session::Source;
use report_writing::{Status, Verbosity, WriteLines, write_not_had_because};
use std::alloc::Global;
use std::io::Write;
use std::net::IpAddr;
use std::rt::Clock;
use std::sync::Wait;
use std::thread::Threads;
use table_receipts::{FileReceipt, Receipt, ReceiptFault, read_receipt};
use table_remaking::TableThere;

/// What is to be compared.
#[derive(Clone, Copy)]
pub struct VerifyJob<'a> {
    pub alloc: Global,
    /// The path of the receipt, and that of the table.
    pub receipt: &'a str,
    pub table: &'a str,
    /// The files that the table is made again of: without any it isn't.
    pub again: &'a [&'a str],
    /// The exporter that is told of each of these, if one is, by its place.
    pub exporters: &'a [Option<IpAddr>],
    /// The files of elements that are given, as a receipt tells them.
    pub element_files: &'a [FileReceipt],
    pub verbosity: Verbosity,
}

/// Compares a table with its receipt, by its octets and their SHA-256. With files it makes the table again of these, by
/// the plan, the format and the export time in the receipt and by `elements`, those of the files that are given, and
/// compares what they give with it: the files with the inputs by their octets, their exporters and what their sessions gave,
/// whatever their names or order, and the tables octet for octet. Its maps are those of the files that the receipt names. It isn't made again
/// by files of elements or of maps that haven't the octets of those in the receipt: then a line says so. Nor is a table whose
/// rows were merged into days or months: after it was read a line says this.
///
/// The receipt is read first, then the table, then the plan, then the files of maps, and the files are opened last. The
/// status is `Well` if nothing differs, and `SessionFault` if anything does; `NotOpened` if a text or a file can't be
/// had, the text of the receipt isn't one, or that of its plan, or files are given for rows that were merged; `Failed` if memory
/// runs out, or the table can't be made of the files. `err` has the lines that say so.
pub fn run_verify<
    T: ReadText,
    S: Source + Send + Drop,
    O: OpenSource<S>,
    P: Write + Copy + Drop + Send,
    E: WriteLines,
    R: Clock + Threads + Wait + Sync,
>(
    rt: &R,
    texts: &T,
    files: &mut O,
    elements: Elements,
    job: &VerifyJob,
    progress: Option<P>,
    err: &mut E,
) -> Status
    ensures verifies { RunsVerify S.seen job.now result O.opens O.sizes O.refuses O.coming
        files.old files.new (AreToldTo E.lines err.old err.new)
        (T.has texts.now) (T.refuses texts.now) elements }
    ensures kept { StaysFailed E.lines err.old err.new }
{
    let text = match texts.read_text(job.alloc, job.receipt) {
        Ok(text) => text,
        Err(reason) => {
            let _ = write_not_had_because(job.verbosity, "open", job.receipt, reason, err);
            return Status::NotOpened;
        }
    };
    let receipt = match receipt_in(job.alloc, &text) {
        Ok(receipt) => receipt,
        Err(fault) => return tell_fault(fault, err),
    };
    let table = match texts.read_text(job.alloc, job.table) {
        Ok(table) => table,
        Err(reason) => {
            let _ = write_not_had_because(job.verbosity, "open", job.table, reason, err);
            return Status::NotOpened;
        }
    };
    let there = TableThere {
        receipt: &receipt,
        table: &table,
    };
    compare_files(rt, texts, files, elements, job, &there, progress, err)
}

// The receipt that octets are the text of.
fn receipt_in(alloc: Global, octets: &[u8]) -> Result<Receipt, ReceiptFault>
    ensures ok { IfOk result (λ receipt. receipt_text (receipt_value receipt) ≡ octets.now) }
    ensures fault { IfErr result (IsFaultOf octets.now) }
{
    match str::from_utf8(octets) {
        Ok(text) => read_receipt(alloc, text),
        Err(_) => Err(ReceiptFault::NotAReceipt),
    }
}
