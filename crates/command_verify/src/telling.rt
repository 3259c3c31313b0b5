//! The lines of what was found.

ghost use Rattle.std.specs.Prelude.{◌≡◌, codes, length, map};
ghost use Rattle.report_writing.specs.Lines.{StaysFailed};
ghost use Rattle.report_writing.specs.Told.{AreToldTo};
ghost use Rattle.report_writing.specs.Writing.{Tells};
ghost use Rattle.table_receipts.specs.Values.{receipt_value};
ghost use Rattle.command_verify.specs.Verified.{TellsDifferences, fault_line, fault_status, merged_into_line, merged_line, verified_line};

use report_writing::{Status, WriteLines, write_fault};
use std::io;
use table_receipts::{MergedInterval, Receipt, ReceiptFault};

/// Tells what differs from a receipt, by its lines; or, if nothing does, that.
pub fn tell_differences<E: WriteLines>(receipt: &Receipt, lines: &[u8], err: &mut E) -> Status
    ensures tells { TellsDifferences (receipt_value receipt.now) lines.now result
        (AreToldTo E.lines err.old err.new) }
    ensures kept { StaysFailed E.lines err.old err.new }
{
    match lines {
        [] => {
            let _ = write_verified(receipt.inputs.len(), receipt.table.rows, err);
            Status::Well
        }
        [_, ..] => {
            let _ = err.write_all(lines);
            Status::SessionFault
        }
    }
}

#[tactic(auto, unfolding(crate::specs::Verified::verified_line))]
fn write_verified<E: WriteLines>(inputs: usize, rows: u64, err: &mut E) -> io::Result<()>
    ensures { Tells E.lines err.old err.new result (verified_line inputs rows) }
{
    writeln!(err, "collectd: verified: inputs {inputs} rows {rows}")
}

/// Tells that a table isn't made again whose rows were merged into these intervals.
pub fn tell_merged<E: WriteLines>(interval: MergedInterval, err: &mut E) -> Status
    ensures status { result ≡ Status.NotOpened }
    ensures told { AreToldTo E.lines err.old err.new (merged_line interval) }
    ensures kept { StaysFailed E.lines err.old err.new }
{
    let _ = write_merged(interval.name(), err);
    Status::NotOpened
}

fn write_merged<E: WriteLines>(interval: &str, err: &mut E) -> io::Result<()>
    ensures { Tells E.lines err.old err.new result (merged_into_line interval.now) }
{
    writeln!(
        err,
        "collectd: verify: made by merge --into {interval}, so it can't be made again: verify its parts"
    )
}

/// Tells why a text isn't read as a receipt.
pub fn tell_fault<E: WriteLines>(fault: ReceiptFault, err: &mut E) -> Status
    ensures status { result ≡ fault_status fault }
    ensures told { AreToldTo E.lines err.old err.new (fault_line fault) }
    ensures kept { StaysFailed E.lines err.old err.new }
{
    let _ = write_receipt_fault(fault, err);
    match fault {
        ReceiptFault::OutOfMemory => Status::Failed,
        ReceiptFault::NotAReceipt => Status::NotOpened,
    }
}

fn write_receipt_fault<E: WriteLines>(fault: ReceiptFault, err: &mut E) -> io::Result<()>
    ensures { Tells E.lines err.old err.new result (fault_line fault) }
{
    match fault {
        ReceiptFault::OutOfMemory => write_fault("verify", 1, "OutOfMemory", err),
        ReceiptFault::NotAReceipt => write_fault("verify", 2, "NotAReceipt", err),
    }
}
