//! The line of a fault of the export.

ghost use Rattle.output_tables.specs.ExportFaultLines.{export_fault_line};
ghost use Rattle.report_writing.specs.Writing.{Tells};

use flow_export::ExportFault;
use report_writing::{WriteLines, write_fault};
use std::io;

/// Writes the line of a fault of the export.
pub fn write_export_fault<W: WriteLines>(fault: ExportFault, out: &mut W) -> io::Result<()>
    ensures { Tells W.lines out.old out.new result (export_fault_line fault) }
{
    write_fault("export", fault.number(), fault.name(), out)
}
