//! The lines of files that an earlier run left.

ghost use Rattle.report_writing.specs.Writing.{Tells};
ghost use Rattle.recording_lines.specs.RecordLines.{cut_off_text, end_text, outcome_line, recovered_line, recovered_start, removed_line, stayed_line, truncated_text};

use crate::file_lines::write_report;
use recording_files::{FileEnd, FileReport, Recovered};
use report_writing::WriteLines;
use std::io;

/// Writes what became of a file that an earlier run left.
pub fn write_outcome<W: WriteLines>(path: &str, outcome: Recovered, out: &mut W) -> io::Result<()>
    ensures { Tells W.lines out.old out.new result
        (outcome_line path.now outcome) }
{
    match outcome {
        Recovered::Placed { report, end } => write_recovered(path, &report, end, out),
        Recovered::Removed(octets) => write_removed(path, octets, out),
        Recovered::Stayed => write_stayed(path, out),
    }
}

// Writes that a file was moved to its period's folder, what it has, and how it ends.
fn write_recovered<W: WriteLines>(
    path: &str,
    report: &FileReport,
    end: FileEnd,
    out: &mut W,
) -> io::Result<()>
    ensures { Tells W.lines out.old out.new result
        (recovered_line path.now report.now end) }
{
    write_start(path, out)?;
    write_report(report, out)?;
    write_file_end(end, out)?;
    writeln!(out)
}

#[tactic(auto, unfolding(crate::specs::RecordLines::recovered_start))]
fn write_start<W: WriteLines>(path: &str, out: &mut W) -> io::Result<()>
    ensures { Tells W.lines out.old out.new result
        (recovered_start path.now) }
{
    write!(out, "collectd: recovered: {path}")
}

// Writes how a file ends. Nothing is written if it ended so when it was found.
fn write_file_end<W: WriteLines>(end: FileEnd, out: &mut W) -> io::Result<()>
    ensures { Tells W.lines out.old out.new result (end_text end) }
{
    match end {
        FileEnd::Whole => Ok(()),
        FileEnd::CutOff(octets) => write_cut_off(octets, out),
        FileEnd::Truncated(octets) => write_truncated(octets, out),
    }
}

// Writes that so many octets of a message were cut off its end.
#[tactic(auto, unfolding(crate::specs::RecordLines::cut_off_text))]
fn write_cut_off<W: WriteLines>(octets: u64, out: &mut W) -> io::Result<()>
    ensures { Tells W.lines out.old out.new result (cut_off_text octets) }
{
    write!(out, ", cut off {octets} octets")
}

// Writes that so many octets of a message still stand at its end.
#[tactic(auto, unfolding(crate::specs::RecordLines::truncated_text))]
fn write_truncated<W: WriteLines>(octets: u64, out: &mut W) -> io::Result<()>
    ensures { Tells W.lines out.old out.new result (truncated_text octets) }
{
    write!(out, ", ends {octets} octets into a message")
}

// Writes that a file went away, since it had no whole message.
#[tactic(auto, unfolding(crate::specs::RecordLines::removed_line))]
fn write_removed<W: WriteLines>(path: &str, octets: u64, out: &mut W) -> io::Result<()>
    ensures { Tells W.lines out.old out.new result
        (removed_line path.now octets) }
{
    writeln!(
        out,
        "collectd: not recovered: {path}: removed {octets} octets, no whole message"
    )
}

// Writes that a file stays among the unfinished ones.
#[tactic(auto, unfolding(crate::specs::RecordLines::stayed_line))]
fn write_stayed<W: WriteLines>(path: &str, out: &mut W) -> io::Result<()>
    ensures { Tells W.lines out.old out.new result
        (stayed_line path.now) }
{
    writeln!(out, "collectd: not recovered: {path}")
}
