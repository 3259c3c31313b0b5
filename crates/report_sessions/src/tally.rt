//! The line that counts the records of each class.

ghost use Rattle.std.specs.Prelude.{◌++◌};
ghost use Rattle.report_sessions.specs.ReportLines.{end_of_counts, first_counts, last_counts, tally_line, tally_line_with};
ghost use Rattle.report_writing.specs.Writing.{Tells};

use flow_table::Tally;
use report_writing::WriteLines;
use std::io;

/// Writes the line that counts the records of each class.
pub fn write_tally<W: WriteLines>(tally: &Tally, out: &mut W) -> io::Result<()>
    ensures { Tells W.lines out.old out.new result (tally_line tally.now) }
{
    write_tally_with(tally, None, out)
}

/// Writes the same line, which ends with how many records a filter left out, where there is one.
pub fn write_tally_with<W: WriteLines>(
    tally: &Tally,
    filtered: Option<u64>,
    out: &mut W,
) -> io::Result<()>
    ensures { Tells W.lines out.old out.new result
        (tally_line_with filtered tally.now) }
{
    write_first_counts(tally, out)?;
    write_other_counts(tally, filtered, out)
}

fn write_other_counts<W: WriteLines>(
    tally: &Tally,
    filtered: Option<u64>,
    out: &mut W,
) -> io::Result<()>
    ensures { Tells W.lines out.old out.new result
        (last_counts tally.now ++ end_of_counts filtered) }
{
    write_last_counts(tally, out)?;
    write_end(filtered, out)
}

#[tactic(auto, unfolding(crate::specs::ReportLines::end_of_counts))]
fn write_end<W: WriteLines>(filtered: Option<u64>, out: &mut W) -> io::Result<()>
    ensures { Tells W.lines out.old out.new result (end_of_counts filtered) }
{
    match filtered {
        Some(filtered) => writeln!(out, " filtered {filtered}"),
        None => writeln!(out),
    }
}

#[tactic(auto, unfolding(crate::specs::ReportLines::first_counts))]
fn write_first_counts<W: WriteLines>(tally: &Tally, out: &mut W) -> io::Result<()>
    ensures { Tells W.lines out.old out.new result (first_counts tally.now) }
{
    let used = tally.used;
    let options = tally.options;
    let untimed = tally.untimed;
    write!(
        out,
        "collectd: records: used {used} options {options} untimed {untimed}"
    )
}

#[tactic(auto, unfolding(crate::specs::ReportLines::last_counts))]
fn write_last_counts<W: WriteLines>(tally: &Tally, out: &mut W) -> io::Result<()>
    ensures { Tells W.lines out.old out.new result (last_counts tally.now) }
{
    let backward = tally.backward;
    let unkeyed = tally.unkeyed;
    let too_long = tally.too_long;
    write!(
        out,
        " backward {backward} unkeyed {unkeyed} too_long {too_long}"
    )
}
