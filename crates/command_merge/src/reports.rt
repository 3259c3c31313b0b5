//! The lines that tell of merging.

ghost use Rattle.std.specs.Prelude.{◌++◌, codes};
ghost use Rattle.flow_merge.specs.MergeFaults.{number_of, name_of};
ghost use Rattle.report_writing.specs.FaultLines.{fault_text};
ghost use Rattle.command_merge.specs.MergeLines.{border_text, file_fault_line, file_fault_lines, file_opened_line, file_start, file_told, merge_fault_line, merge_fault_text, merged_line, named_fault_line, named_fault_told, not_merged_lines};
ghost use Rattle.report_writing.specs.Writing.{Tells};

use crate::not_merged::{FileFault, NotMerged};
use flow_merge::MergeFault;
use report_sessions::write_unread;
use report_writing::{
    Origin, Verbosity, WriteLines, write_fault, write_not_had_because, write_origin,
};
use std::io;

/// Writes the line that counts the files that were merged, and the rows of their table.
#[tactic(auto, unfolding(crate::specs::MergeLines::merged_line))]
pub fn write_merged<W: WriteLines>(files: usize, rows: usize, out: &mut W) -> io::Result<()>
    ensures { Tells W.lines out.old out.new result (merged_line files rows) }
{
    writeln!(out, "collectd: merged: files {files} rows {rows}")
}

/// Writes why files were not merged.
pub fn write_not_merged<W: WriteLines>(
    verbosity: Verbosity,
    not_merged: &NotMerged,
    out: &mut W,
) -> io::Result<()>
    ensures { Tells W.lines out.old out.new result
        (not_merged_lines verbosity not_merged.now) }
{
    match not_merged {
        NotMerged::NotOpened { path, reason } => {
            write_not_had_because(verbosity, "open", path, *reason, out)
        }
        NotMerged::File {
            number,
            path,
            fault,
        } => write_file_fault(verbosity, *number, path, *fault, out),
        NotMerged::Whole(fault) => write_merge_fault(*fault, out),
    }
}

// The line of a fault that is no file's.
fn write_merge_fault<W: WriteLines>(fault: MergeFault, out: &mut W) -> io::Result<()>
    ensures { Tells W.lines out.old out.new result (merge_fault_line fault) }
{
    write_fault("merge", fault.number(), fault.name(), out)
}

// The lines of a file, counted from 1, that was not merged. The first has the fault, and after it that of its
// session or of its record. If `verbosity` is verbose, the same line follows with the file's name, and then why
// the file could not be read on, if that is known.
fn write_file_fault<W: WriteLines>(
    verbosity: Verbosity,
    file: usize,
    name: &str,
    fault: FileFault,
    out: &mut W,
) -> io::Result<()>
    ensures { Tells W.lines out.old out.new result
        (file_fault_lines verbosity file name.now fault) }
{
    write_numbered_fault(file, fault.fault, out)?;
    write_if_verbose(verbosity, file, name, fault.fault, out)?;
    write_unread(verbosity, name, fault.reason, out)
}

fn write_if_verbose<W: WriteLines>(
    verbosity: Verbosity,
    file: usize,
    name: &str,
    fault: MergeFault,
    out: &mut W,
) -> io::Result<()>
    ensures { Tells W.lines out.old out.new result
        (named_fault_told verbosity file name.now fault) }
{
    if verbosity.verbose {
        write_named_fault(file, name, fault, out)
    } else {
        Ok(())
    }
}

fn write_numbered_fault<W: WriteLines>(
    file: usize,
    fault: MergeFault,
    out: &mut W,
) -> io::Result<()>
    ensures { Tells W.lines out.old out.new result (file_fault_line file fault) }
{
    write_file_start(file, out)?;
    write_merge_fault_text(fault, out)
}

fn write_named_fault<W: WriteLines>(
    file: usize,
    name: &str,
    fault: MergeFault,
    out: &mut W,
) -> io::Result<()>
    ensures { Tells W.lines out.old out.new result
        (named_fault_line file name.now fault) }
{
    write_file_start(file, out)?;
    write_origin(&Origin::File { name, size: None }, out)?;
    write_merge_fault_text(fault, out)
}

// The fault of a file, and after it that of its session or of its record, or the number of the row that crosses a
// border, to the end of the line.
fn write_merge_fault_text<W: WriteLines>(fault: MergeFault, out: &mut W) -> io::Result<()>
    ensures { Tells W.lines out.old out.new result (merge_fault_text fault) }
{
    match fault {
        MergeFault::Session(inner) => {
            write_inner(": fault 3 Session", inner.number(), inner.name(), out)
        }
        MergeFault::Row(inner) => write_inner(": fault 6 Row", inner.number(), inner.name(), out),
        MergeFault::Border(row) => write_border(row, out),
        _ => write_inner("", fault.number(), fault.name(), out),
    }
}

// The last fault, after what stands before it.
#[tactic(auto, unfolding(report_writing::specs::FaultLines::fault_text))]
fn write_inner<W: WriteLines>(what: &str, number: u8, name: &str, out: &mut W) -> io::Result<()>
    ensures { Tells W.lines out.old out.new result
        (what.now ++ fault_text number name.now) }
{
    writeln!(out, "{what}: fault {number} {name}")
}

// A row that crosses a border, by its number.
#[tactic(auto, unfolding(crate::specs::MergeLines::border_text))]
fn write_border<W: WriteLines>(row: u64, out: &mut W) -> io::Result<()>
    ensures { Tells W.lines out.old out.new result (border_text row) }
{
    writeln!(out, ": fault 12 Border: row {row}")
}

/// Writes the line of a file, counted from 1, that was opened, with its name. Nothing is written unless
/// `verbosity` is verbose.
pub fn write_file_opened<W: WriteLines>(
    verbosity: Verbosity,
    file: usize,
    name: &str,
    out: &mut W,
) -> io::Result<()>
    ensures { Tells W.lines out.old out.new result
        (file_told verbosity file name.now) }
{
    if verbosity.verbose {
        write_opened_line(file, name, out)
    } else {
        Ok(())
    }
}

fn write_opened_line<W: WriteLines>(file: usize, name: &str, out: &mut W) -> io::Result<()>
    ensures { Tells W.lines out.old out.new result (file_opened_line file name.now) }
{
    write_file_start(file, out)?;
    write_origin(&Origin::File { name, size: None }, out)?;
    out.write_all(b": opened\n")
}

/// Writes how the lines of a file begin, counted from 1.
#[tactic(auto, unfolding(crate::specs::MergeLines::file_start))]
pub fn write_file_start<W: WriteLines>(file: usize, out: &mut W) -> io::Result<()>
    ensures { Tells W.lines out.old out.new result (file_start file) }
{
    write!(out, "collectd: merge: file {file}")
}
