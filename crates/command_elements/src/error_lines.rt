//! The lines that tell of a word and of the list.

ghost use Rattle.command_elements.specs.ErrorLines.{failed_line, memory_line, none_line};
ghost use Rattle.report_writing.specs.Writing.{Tells};

use report_writing::WriteLines;
use std::io;

/// Writes the line that says that a word fits no element.
pub fn write_none<W: WriteLines>(out: &mut W) -> io::Result<()>
    ensures { Tells W.lines out.old out.new result none_line }
{
    writeln!(
        out,
        "error: no element has this number, or this text in its name; 'collectd elements' lists them"
    )
}

/// Writes the line of a fault of writing, which has this number and name wherever something is written.
pub fn write_failed<W: WriteLines>(out: &mut W) -> io::Result<()>
    ensures { Tells W.lines out.old out.new result failed_line }
{
    writeln!(out, "collectd: elements: fault 2 WriteFailed")
}

/// Writes the line that says that there is no memory to begin with.
pub fn write_out_of_memory<W: WriteLines>(out: &mut W) -> io::Result<()>
    ensures { Tells W.lines out.old out.new result memory_line }
{
    writeln!(out, "collectd: elements: fault 10 OutOfMemory")
}
