//! The line of a fault of collecting.

ghost use Rattle.command_collect.specs.CollectLines.{collect_fault_line};
ghost use Rattle.report_writing.specs.Writing.{Tells};

use flow_collect::CollectFault;
use report_writing::{WriteLines, write_fault};
use std::io;

/// Writes the line of a fault of collecting.
pub fn write_collect_fault<W: WriteLines>(fault: CollectFault, out: &mut W) -> io::Result<()>
    ensures { Tells W.lines out.old out.new result (collect_fault_line fault) }
{
    write_fault("collect", fault.number(), fault.name(), out)
}
