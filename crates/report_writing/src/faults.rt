//! The lines of faults, and of what the system did not give.

ghost use Rattle.std.specs.Prelude.{◌++◌, codes};
ghost use Rattle.report_writing.specs.FaultLines.{fault_text, not_had_line};
ghost use Rattle.report_writing.specs.Writing.{Tells};

use crate::write_lines::WriteLines;
use std::io;

/// The line of a fault, of whatever it is.
#[tactic(auto, unfolding(crate::specs::FaultLines::fault_text))]
pub fn write_fault<W: WriteLines>(what: &str, number: u8, name: &str, out: &mut W) -> io::Result<()>
    ensures { Tells W.lines out.old out.new result
        (codes "collectd: " ++ (what.now ++ fault_text number name.now)) }
{
    writeln!(out, "collectd: {what}: fault {number} {name}")
}

/// Writes the line of what the system did not give: `what` is "open" with the path of a file, or
/// "listen" with an address.
#[tactic(auto, unfolding(crate::specs::FaultLines::not_had_line))]
pub fn write_not_had<W: WriteLines>(what: &str, name: &str, out: &mut W) -> io::Result<()>
    ensures { Tells W.lines out.old out.new result (not_had_line what.now name.now) }
{
    writeln!(out, "collectd: {what}: {name}")
}
