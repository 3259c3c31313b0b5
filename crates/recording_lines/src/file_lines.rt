//! The lines of a file that is finished, and of one that could not be.

ghost use Rattle.report_writing.specs.Writing.{Tells};
ghost use Rattle.recording_lines.specs.RecordLines.{counts_text, finished_line, ignored_end, ignored_text, line_start, losses_text, not_finished_line, report_text, uncounted_end, uncounted_text};

use recording_files::FileReport;
use report_writing::WriteLines;
use std::io;

/// Writes the line of a file that is finished: its path, what the exporter sent in it, and how many withdrawals
/// were ignored, if some were.
pub fn write_finished<W: WriteLines>(path: &str, report: &FileReport, out: &mut W) -> io::Result<()>
    ensures { Tells W.lines out.old out.new result
        (finished_line path.now report.now) }
{
    write_start(path, out)?;
    write_report(report, out)?;
    write_ignored(report, out)?;
    writeln!(out)
}

/// Writes what a file has. Unknown sets and unaccounted records stand there only if there were some.
pub(crate) fn write_report<W: WriteLines>(report: &FileReport, out: &mut W) -> io::Result<()>
    ensures { Tells W.lines out.old out.new result (report_text report.now) }
{
    write_counts(report, out)?;
    write_losses(report, out)?;
    write_uncounted(report, out)
}

// Nothing is written if none was ignored.
fn write_ignored<W: WriteLines>(report: &FileReport, out: &mut W) -> io::Result<()>
    ensures { Tells W.lines out.old out.new result (ignored_end report.now) }
{
    if report.ignored_withdrawals == 0 {
        Ok(())
    } else {
        write_ignored_text(report, out)
    }
}

#[tactic(auto, unfolding(crate::specs::RecordLines::ignored_text))]
fn write_ignored_text<W: WriteLines>(report: &FileReport, out: &mut W) -> io::Result<()>
    ensures { Tells W.lines out.old out.new result (ignored_text report.now) }
{
    let FileReport {
        ignored_withdrawals,
        ..
    } = *report;
    write!(out, ", ignored_withdrawals {ignored_withdrawals}")
}

/// Writes that a file could not be finished, by its path.
#[tactic(auto, unfolding(crate::specs::RecordLines::not_finished_line))]
pub fn write_not_finished<W: WriteLines>(path: &str, out: &mut W) -> io::Result<()>
    ensures { Tells W.lines out.old out.new result
        (not_finished_line path.now) }
{
    writeln!(out, "collectd: not finished: {path}")
}

#[tactic(auto, unfolding(crate::specs::RecordLines::line_start))]
fn write_start<W: WriteLines>(path: &str, out: &mut W) -> io::Result<()>
    ensures { Tells W.lines out.old out.new result
        (line_start path.now) }
{
    write!(out, "collectd: {path}")
}

#[tactic(auto, unfolding(crate::specs::RecordLines::counts_text))]
fn write_counts<W: WriteLines>(report: &FileReport, out: &mut W) -> io::Result<()>
    ensures { Tells W.lines out.old out.new result (counts_text report.now) }
{
    let FileReport {
        messages,
        records,
        ..
    } = *report;
    write!(out, ": messages {messages}, records {records}")
}

#[tactic(auto, unfolding(crate::specs::RecordLines::losses_text))]
fn write_losses<W: WriteLines>(report: &FileReport, out: &mut W) -> io::Result<()>
    ensures { Tells W.lines out.old out.new result (losses_text report.now) }
{
    let FileReport { lost, backward, .. } = *report;
    write!(out, ", lost {lost}, backward {backward}")
}

// Nothing is written if there were none.
fn write_uncounted<W: WriteLines>(report: &FileReport, out: &mut W) -> io::Result<()>
    ensures { Tells W.lines out.old out.new result (uncounted_end report.now) }
{
    if report.unknown_sets == 0 && report.unaccounted == 0 {
        Ok(())
    } else {
        write_uncounted_text(report, out)
    }
}

#[tactic(auto, unfolding(crate::specs::RecordLines::uncounted_text))]
fn write_uncounted_text<W: WriteLines>(report: &FileReport, out: &mut W) -> io::Result<()>
    ensures { Tells W.lines out.old out.new result (uncounted_text report.now) }
{
    let FileReport {
        unknown_sets,
        unaccounted,
        ..
    } = *report;
    write!(
        out,
        ", unknown_sets {unknown_sets}, unaccounted {unaccounted}"
    )
}
