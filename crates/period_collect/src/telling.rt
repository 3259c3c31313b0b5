//! The lines about files that are left out of a table.

ghost use Rattle.report_writing.specs.Lines.{StaysFailed};
ghost use Rattle.report_writing.specs.Told.{AreToldTo};
ghost use Rattle.report_writing.specs.Writing.{Tells};
ghost use Rattle.period_collect.specs.LeftOutFiles.{left_out_line, left_out_lines, same_line, texts_at};
ghost use Rattle.period_collect.specs.ManyRows.{large_line, large_lines};

use crate::places::path_at;
use report_writing::WriteLines;
use std::io;

/// Writes that the files at these places of the paths are left out of a table, in the order of the places.
pub(crate) fn tell_left_out<E: WriteLines>(paths: &[&str], out: &[usize], err: &mut E)
    ensures told { AreToldTo E.lines err.old err.new
        (left_out_lines (texts_at out.now paths.now)) }
    ensures kept { StaysFailed E.lines err.old err.new }
{
    for place in out {
        let _ = write_left_out(path_at(paths, *place), err);
    }
}

// Writes that the file of a path is left out of a table.
#[tactic(auto, unfolding(crate::specs::LeftOutFiles::left_out_line))]
fn write_left_out<E: WriteLines>(path: &str, err: &mut E) -> io::Result<()>
    ensures { Tells E.lines err.old err.new result (left_out_line path.now) }
{
    writeln!(
        err,
        "collectd: tables: left out, since a sum was 2^64 or more: {path}"
    )
}

/// Writes that the file of a path is left out of a table, since it has the same octets as that of another.
#[tactic(auto, unfolding(crate::specs::LeftOutFiles::same_line))]
pub(crate) fn write_same<E: WriteLines>(other: &str, path: &str, err: &mut E) -> io::Result<()>
    ensures { Tells E.lines err.old err.new result (same_line other.now path.now) }
{
    writeln!(
        err,
        "collectd: tables: left out, since its octets are those of {other}: {path}"
    )
}

/// Writes that the files at these places of the paths are left out of a table, since they have more rows than this limit, in the
/// order of the places.
pub(crate) fn tell_large<E: WriteLines>(limit: u64, paths: &[&str], out: &[usize], err: &mut E)
    ensures told { AreToldTo E.lines err.old err.new
        (large_lines limit (texts_at out.now paths.now)) }
    ensures kept { StaysFailed E.lines err.old err.new }
{
    for place in out {
        let _ = write_large(limit, path_at(paths, *place), err);
    }
}

// Writes that the file of a path is left out of a table, since it has more rows than this limit.
#[tactic(auto, unfolding(crate::specs::ManyRows::large_line))]
fn write_large<E: WriteLines>(limit: u64, path: &str, err: &mut E) -> io::Result<()>
    ensures { Tells E.lines err.old err.new result (large_line limit path.now) }
{
    writeln!(
        err,
        "collectd: tables: left out, since it has more than {limit} rows: {path}"
    )
}
