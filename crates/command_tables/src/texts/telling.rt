//! The lines about the text of a table, and how the command ends by it.

ghost use Rattle.std.specs.Prelude.{◌≡◌};
ghost use Rattle.report_writing.specs.Told.{AreToldTo};
ghost use Rattle.report_writing.specs.Writing.{Tells};
ghost use Rattle.command_tables.specs.Telling.{fault_status, fault_words, text_lines, text_paths, text_status};

use super::fault::TextFault;
use super::taking::TextOutcome;
use flow_export::ExportFault;
use period_tables::{status_of_reason, words_of_unread, write_path, write_period};
use report_writing::{Status, WriteLines};
use std::io;

/// Writes the path of a text if it was made.
pub fn write_text_path<O: WriteLines>(path: &str, outcome: &TextOutcome, out: &mut O)
    ensures { AreToldTo O.lines out.old out.new (text_paths path.now outcome.now) }
{
    if let TextOutcome::Made = outcome {
        let _ = write_path(path, out);
    }
}

/// Writes why a table has no text of it, and answers how the command ends by it.
pub fn tell_text<E: WriteLines>(table: &str, outcome: &TextOutcome, err: &mut E) -> Status
    ensures status { result ≡ text_status outcome.now }
    ensures told { AreToldTo E.lines err.old err.new (text_lines table.now outcome.now) }
{
    // (a line that can't be written stops nothing)
    let _ = write_outcome(table, outcome, err);
    status_of(outcome)
}

fn write_outcome<E: WriteLines>(table: &str, outcome: &TextOutcome, err: &mut E) -> io::Result<()>
    ensures { Tells E.lines err.old err.new result (text_lines table.now outcome.now) }
{
    match outcome {
        TextOutcome::NoTable | TextOutcome::UpToDate | TextOutcome::Made => Ok(()),
        TextOutcome::NotRead(reason) => {
            write_period(table, "text not read", words_of_unread(*reason), err)
        }
        TextOutcome::NotMade(fault) => write_period(table, "text not made", words_of(*fault), err),
        TextOutcome::NotPut(reason) => {
            write_period(table, "text not written", reason.words(), err)
        }
    }
}

fn words_of(fault: TextFault) -> &'static str
    ensures { result.now ≡ fault_words fault }
{
    match fault {
        TextFault::OutOfMemory => "out of memory",
        TextFault::NotRead(reason) => words_of_unread(reason),
        TextFault::OtherPlan => "no receipt of this plan",
        TextFault::NotItsTable => "another table than its receipt's",
        TextFault::NotMerged(_) => "no table of this plan",
        TextFault::NotWritten(ExportFault::TooManyRows) => "too many rows",
        TextFault::NotWritten(_) => "out of memory",
    }
}

fn status_of(outcome: &TextOutcome) -> Status
    ensures { result ≡ text_status outcome.now }
{
    match outcome {
        TextOutcome::NoTable | TextOutcome::UpToDate | TextOutcome::Made => Status::Well,
        TextOutcome::NotRead(reason) => status_of_reason(*reason),
        TextOutcome::NotMade(fault) => status_of_fault(*fault),
        TextOutcome::NotPut(_) => Status::Failed,
    }
}

fn status_of_fault(fault: TextFault) -> Status
    ensures { result ≡ fault_status fault }
{
    match fault {
        TextFault::NotRead(reason) => status_of_reason(reason),
        _ => Status::Failed,
    }
}
