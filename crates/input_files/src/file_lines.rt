//! The lines that tell of files of elements.

ghost use Rattle.std.specs.Prelude.{◌≡◌, ◌++◌, codes};
ghost use Rattle.report_writing.specs.FaultLines.{fault_text};
ghost use Rattle.input_files.specs.FileLines.{column_text, error_line, fault_end, file_start, place_of, place_text, unknown_type_line};
ghost use Rattle.report_writing.specs.Writing.{Tells};

use element_registry::{ElementsError, ElementsFault};
use report_writing::WriteLines;
use std::io;

/// Writes the line of what is wrong with a file of elements, and where.
pub fn write_error<W: WriteLines>(path: &str, error: &ElementsError, out: &mut W) -> io::Result<()>
    ensures { Tells W.lines out.old out.new result (error_line path.now error.now) }
{
    write_file_start(path, out)?;
    write_place(error, out)?;
    write_fault_end(error.fault, out)
}

/// Writes the line of the first row of a file that has a type that is not known.
pub fn write_unknown_type<W: WriteLines>(path: &str, line: u64, out: &mut W) -> io::Result<()>
    ensures { Tells W.lines out.old out.new result (unknown_type_line path.now line) }
{
    write_file_start(path, out)?;
    write_line_number(line, out)?;
    writeln!(out, ": a type that is not known, read as octets")
}

#[tactic(auto, unfolding(crate::specs::FileLines::file_start))]
fn write_file_start<W: WriteLines>(path: &str, out: &mut W) -> io::Result<()>
    ensures { Tells W.lines out.old out.new result (file_start path.now) }
{
    write!(out, "collectd: elements: {path}")
}

fn write_place<W: WriteLines>(error: &ElementsError, out: &mut W) -> io::Result<()>
    ensures { Tells W.lines out.old out.new result (place_of error.now) }
{
    match error.fault {
        ElementsFault::OutOfMemory => Ok(()),
        _ => write_line_number(error.line, out),
    }
}

#[tactic(auto, unfolding(crate::specs::FileLines::place_text))]
fn write_line_number<W: WriteLines>(line: u64, out: &mut W) -> io::Result<()>
    ensures { Tells W.lines out.old out.new result (place_text line) }
{
    write!(out, ": line {line}")
}

fn write_fault_end<W: WriteLines>(fault: ElementsFault, out: &mut W) -> io::Result<()>
    ensures { Tells W.lines out.old out.new result (fault_end fault) }
{
    match fault {
        ElementsFault::Column(heading) => write_column_end(heading.name(), out),
        _ => write_number_and_name(fault.number(), fault.name(), out),
    }
}

#[tactic(auto, unfolding(crate::specs::FileLines::column_text))]
fn write_column_end<W: WriteLines>(heading: &str, out: &mut W) -> io::Result<()>
    ensures { Tells W.lines out.old out.new result (column_text heading.now) }
{
    writeln!(out, ": fault 3 Column: {heading}")
}

#[tactic(auto, unfolding(report_writing::specs::FaultLines::fault_text))]
fn write_number_and_name<W: WriteLines>(number: u8, name: &str, out: &mut W) -> io::Result<()>
    ensures { Tells W.lines out.old out.new result (fault_text number name.now) }
{
    writeln!(out, ": fault {number} {name}")
}
