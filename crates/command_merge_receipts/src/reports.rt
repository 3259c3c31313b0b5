//! The lines that tell why parts were not merged.

ghost use Rattle.std.specs.Prelude.{◌≡◌, ◌++◌};
ghost use Rattle.command_merge.specs.MergeLines.{file_start, named_file_line};
ghost use Rattle.command_merge_receipts.specs.Lines.{both_text, counted_start, counted_twice_line, counted_twice_lines, name_at as name_in, not_merged_parts_lines, part_lines, part_text, shown, twice_text};
ghost use Rattle.report_writing.specs.Origins.{whole_name};
ghost use Rattle.report_writing.specs.Writing.{Tells};

use crate::not_merged::NotMergedParts;
use command_merge::{write_file_start, write_not_merged};
use receipt_merging::PartFault;
use report_sessions::write_unread;
use report_writing::{Origin, Verbosity, WriteLines, write_origin};
use std::io;
use table_receipts::InputReceipt;

/// Writes why parts were not merged.
pub fn write_not_merged_parts<W: WriteLines>(
    verbosity: Verbosity,
    not_merged: &NotMergedParts,
    out: &mut W,
) -> io::Result<()>
    ensures { Tells W.lines out.old out.new result
        (not_merged_parts_lines verbosity not_merged.now) }
{
    match not_merged {
        NotMergedParts::NotMerged(not_merged) => write_not_merged(verbosity, not_merged, out),
        NotMergedParts::Receipt(number, files, why) => {
            let what = PartText::Fault(PartFault::Receipt);
            write_part(verbosity, *number, files.table, &what, out)?;
            write_unread(verbosity, files.receipt, *why, out)
        }
        NotMergedParts::Part(number, files, fault) => {
            write_part(
                verbosity,
                *number,
                files.table,
                &PartText::Fault(*fault),
                out,
            )
        }
        NotMergedParts::InputTwice(number, files, inputs, first, second) => {
            let what = PartText::Twice(name_at(inputs, *first), name_at(inputs, *second));
            write_part(verbosity, *number, files.table, &what, out)
        }
    }
}

// What is wrong with a part: a fault, or the names of two inputs that are the same.
#[derive(Clone, Copy)]
enum PartText<'a> {
    Fault(PartFault),
    Twice(&'a str, &'a str),
}

// Writes the line of a part, and once more with its name, if that is asked for.
fn write_part<W: WriteLines>(
    verbosity: Verbosity,
    number: usize,
    name: &str,
    what: &PartText,
    out: &mut W,
) -> io::Result<()>
    ensures { Tells W.lines out.old out.new result
        (part_lines verbosity number name.now (shown what.now)) }
{
    write_numbered(number, what, out)?;
    if verbosity.verbose {
        write_named(number, name, what, out)
    } else {
        Ok(())
    }
}

fn write_numbered<W: WriteLines>(number: usize, what: &PartText, out: &mut W) -> io::Result<()>
    ensures { Tells W.lines out.old out.new result
        (file_start number ++ shown what.now) }
{
    write_file_start(number, out)?;
    write_what(what, out)
}

fn write_named<W: WriteLines>(
    number: usize,
    name: &str,
    what: &PartText,
    out: &mut W,
) -> io::Result<()>
    ensures { Tells W.lines out.old out.new result
        (named_file_line number name.now (shown what.now)) }
{
    write_file_start(number, out)?;
    write_name(name, out)?;
    write_what(what, out)
}

fn write_what<W: WriteLines>(what: &PartText, out: &mut W) -> io::Result<()>
    ensures { Tells W.lines out.old out.new result (shown what.now) }
{
    match what {
        PartText::Fault(fault) => write_part_fault(*fault, out),
        PartText::Twice(first, second) => write_twice(first, second, out),
    }
}

#[tactic(auto, unfolding(report_writing::specs::FaultLines::fault_text))]
fn write_part_fault<W: WriteLines>(fault: PartFault, out: &mut W) -> io::Result<()>
    ensures { Tells W.lines out.old out.new result (part_text fault) }
{
    let number = fault.number();
    let name = fault.name();
    writeln!(out, ": fault {number} {name}")
}

fn write_twice<W: WriteLines>(first: &str, second: &str, out: &mut W) -> io::Result<()>
    ensures { Tells W.lines out.old out.new result (twice_text first.now second.now) }
{
    out.write_all(b": fault 10 InputTwice:")?;
    write_both(first, second, out)
}

/// Writes that two inputs are counted twice, those at these places, if there are such.
pub fn write_counted_twice<W: WriteLines>(
    inputs: &[InputReceipt],
    twice: Option<(usize, usize)>,
    out: &mut W,
) -> io::Result<()>
    ensures { Tells W.lines out.old out.new result (counted_twice_lines inputs.now twice) }
{
    match twice {
        Some((first, second)) => {
            write_twice_counted(name_at(inputs, first), name_at(inputs, second), out)
        }
        None => Ok(()),
    }
}

fn write_twice_counted<W: WriteLines>(first: &str, second: &str, out: &mut W) -> io::Result<()>
    ensures { Tells W.lines out.old out.new result
        (counted_twice_line first.now second.now) }
{
    write_counted_start(out)?;
    write_both(first, second, out)
}

#[tactic(auto, unfolding(crate::specs::Lines::counted_start))]
fn write_counted_start<W: WriteLines>(out: &mut W) -> io::Result<()>
    ensures { Tells W.lines out.old out.new result counted_start }
{
    write!(
        out,
        "collectd: merge: counted twice, since their octets are the same:"
    )
}

// Writes the names of two inputs at the end of a line.
fn write_both<W: WriteLines>(first: &str, second: &str, out: &mut W) -> io::Result<()>
    ensures { Tells W.lines out.old out.new result (both_text first.now second.now) }
{
    write_name(first, out)?;
    out.write_all(b" and")?;
    write_name(second, out)?;
    out.write_all(b"\n")
}

fn write_name<W: WriteLines>(name: &str, out: &mut W) -> io::Result<()>
    ensures { Tells W.lines out.old out.new result (whole_name name.now) }
{
    write_origin(&Origin::File { name, size: None }, out)
}

// The name of the input at a place, if there is one.
fn name_at(inputs: &[InputReceipt], place: usize) -> &str
    ensures { result.now ≡ name_in inputs.now place }
{
    match inputs.get(place) {
        Some(input) => input.file.name.as_str(),
        None => "",
    }
}
