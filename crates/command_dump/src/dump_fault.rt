//! The line of a fault of the dump.

ghost use Rattle.report_writing.specs.Writing.{Tells};
ghost use Rattle.command_dump.specs.DumpFaultLines.{dump_fault_line};

use ipfix_dump::DumpFault;
use report_writing::{WriteLines, write_fault};
use std::io;

/// Writes the line of a fault of the dump.
pub fn write_dump_fault<W: WriteLines>(fault: DumpFault, out: &mut W) -> io::Result<()>
    ensures { Tells W.lines out.old out.new result (dump_fault_line fault) }
{
    write_fault("dump", fault.number(), fault.name(), out)
}
