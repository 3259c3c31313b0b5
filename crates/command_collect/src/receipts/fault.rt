//! Why there is no receipt, and its line.

ghost use Rattle.command_collect.specs.Faults.{name_of, number_of, receipt_fault_line, run_fault_line, twice_line};
ghost use Rattle.report_writing.specs.Writing.{Tells};
ghost use Rattle.std.specs.Prelude.{◌≡◌, ◌+◌, ◌^◌, ◌<◌};

use flow_export::ExportFault;
use output_tables::write_export_fault;
use report_writing::{WriteLines, write_fault};
use std::io;

/// Why there is no receipt.
#[derive(Clone, Copy, Debug, PartialEq, Eq)]
pub enum ReceiptFault {
    /// Memory was refused.
    OutOfMemory,
    /// It couldn't be written.
    WriteFailed,
    /// The inputs at these places, counted from 0, are the same, and have data records: they would be counted twice.
    InputTwice(usize, usize),
}

impl ReceiptFault {
    /// The number that reports give for the fault.
    pub fn number(&self) -> u8
        ensures { result ≡ number_of self.now }
    {
        match self {
            ReceiptFault::OutOfMemory => 1,
            ReceiptFault::WriteFailed => 2,
            ReceiptFault::InputTwice(_, _) => 3,
        }
    }

    /// The name that reports give for the fault.
    pub fn name(&self) -> &'static str
        ensures { result.now ≡ name_of self.now }
    {
        match self {
            ReceiptFault::OutOfMemory => "OutOfMemory",
            ReceiptFault::WriteFailed => "WriteFailed",
            ReceiptFault::InputTwice(_, _) => "InputTwice",
        }
    }
}

/// Why a run wrote no receipt.
#[derive(Clone, Copy, Debug, PartialEq, Eq)]
pub enum RunFault {
    /// Its table wasn't written.
    Export(ExportFault),
    Receipt(ReceiptFault),
}

/// Writes the line of a fault of a run.
pub fn write_run_fault<E: WriteLines>(fault: RunFault, err: &mut E) -> io::Result<()>
    ensures { Tells E.lines err.old err.new result (run_fault_line fault) }
{
    match fault {
        RunFault::Export(fault) => write_export_fault(fault, err),
        RunFault::Receipt(fault) => write_receipt_fault(fault, err),
    }
}

// Writes the line of a fault of a receipt.
fn write_receipt_fault<E: WriteLines>(fault: ReceiptFault, err: &mut E) -> io::Result<()>
    ensures { Tells E.lines err.old err.new result (receipt_fault_line fault) }
{
    match fault {
        ReceiptFault::OutOfMemory => write_fault("receipt", 1, "OutOfMemory", err),
        ReceiptFault::WriteFailed => write_fault("receipt", 2, "WriteFailed", err),
        ReceiptFault::InputTwice(first, second) => {
            write_twice(first as u128 + 1, second as u128 + 1, err)
        }
    }
}

#[tactic(auto, unfolding(crate::specs::Faults::twice_line))]
fn write_twice<E: WriteLines>(first: u128, second: u128, err: &mut E) -> io::Result<()>
    ensures { Tells E.lines err.old err.new result (twice_line first second) }
{
    writeln!(
        err,
        "collectd: receipt: fault 3 InputTwice: inputs {first} and {second}"
    )
}
