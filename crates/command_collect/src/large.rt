//! What a verbose run names where a sum is too large.

ghost use Rattle.std.specs.Prelude.{◌≡◌, option_map, slice_get};
ghost use Rattle.std.specs.Option.{option_map_or};
ghost use Rattle.flow_export.specs.Shown.{shown_cell as shown};
ghost use Rattle.flow_export.specs.Written.{next_cell};
ghost use Rattle.report_writing.specs.Origins.{number_text, origin_text};
ghost use Rattle.report_writing.specs.Writing.{Tells};
ghost use Rattle.command_collect.specs.Large.{failure_lines, interval_start, interval_text, large_lines, named_lines, next_cells, noted_counters, origin_at, row_line, row_lines, session_line};

use crate::cells::write_cell;
use crate::collect_fault::write_collect_fault;
use flow_collect::CollectFailure;
use flow_export::shown_cell;
use flow_table::{Key, Plan, RowPlace};
use ipfix_elements::Cell;
use ipfix_wire::ElementId;
use report_writing::{Origin, Verbosity, WriteLines, write_origin};
use std::io;

/// The counters of a plan, of which a verbose run notes whether a record has one above 2^63.
pub fn noted_counters(verbosity: Verbosity, plan: &Plan) -> Option<&[ElementId]>
    ensures { option_map (λ counters. counters.now) result ≡
        noted_counters verbosity plan.now }
{
    if verbosity.verbose {
        Some(plan.counters())
    } else {
        None
    }
}

/// Writes the line of the fault, and after it what a verbose run names: the row whose sum is too large, and the session of
/// a record with a counter above 2^63.
pub fn write_failure<W: WriteLines>(
    verbosity: Verbosity,
    plan: &Plan,
    origins: &[Origin],
    failure: &CollectFailure,
    out: &mut W,
) -> io::Result<()>
    ensures { Tells W.lines out.old out.new result
        (failure_lines verbosity plan.now origins.now failure.now) }
{
    write_collect_fault(failure.fault, out)?;
    write_large(verbosity, plan, origins, failure, out)
}

fn write_large<W: WriteLines>(
    verbosity: Verbosity,
    plan: &Plan,
    origins: &[Origin],
    failure: &CollectFailure,
    out: &mut W,
) -> io::Result<()>
    ensures { Tells W.lines out.old out.new result
        (large_lines verbosity plan.now origins.now failure.now) }
{
    if verbosity.verbose {
        write_named(plan, origins, failure, out)
    } else {
        Ok(())
    }
}

fn write_named<W: WriteLines>(
    plan: &Plan,
    origins: &[Origin],
    failure: &CollectFailure,
    out: &mut W,
) -> io::Result<()>
    ensures { Tells W.lines out.old out.new result
        (named_lines plan.now origins.now failure.now) }
{
    write_if_row(plan, &failure.row, out)?;
    match failure.session {
        Some(place) => write_session(origins, place, out),
        None => Ok(()),
    }
}

fn write_if_row<W: WriteLines>(plan: &Plan, row: &Option<RowPlace>, out: &mut W) -> io::Result<()>
    ensures { Tells W.lines out.old out.new result
        (row_lines plan.now row.now) }
{
    match row {
        Some(row) => write_row(plan, row, out),
        None => Ok(()),
    }
}

fn write_row<W: WriteLines>(plan: &Plan, row: &RowPlace, out: &mut W) -> io::Result<()>
    ensures { Tells W.lines out.old out.new result
        (row_line plan.now row.now) }
{
    write_interval(plan, row.interval, out)?;
    write_key(plan.keys(), &row.key, out)?;
    writeln!(out)
}

// The first and the last millisecond, in 128 bits since no bound is known of the number.
fn write_interval<W: WriteLines>(plan: &Plan, interval: u64, out: &mut W) -> io::Result<()>
    ensures { Tells W.lines out.old out.new result
        (interval_start plan.now interval) }
{
    let length = u128::from(plan.length());
    let first = u128::from(interval) * length;
    write_bounds(first, first + length - 1, out)
}

#[tactic(auto, unfolding(crate::specs::Large::interval_text))]
fn write_bounds<W: WriteLines>(first: u128, last: u128, out: &mut W) -> io::Result<()>
    ensures { Tells W.lines out.old out.new result
        (interval_text first last) }
{
    write!(out, "collectd: collect: too large: {first},{last}")
}

// A comma and a cell for each, as tables show it.
fn write_key<W: WriteLines>(keys: &[Key], cells: &[Cell], out: &mut W) -> io::Result<()>
    ensures { Tells W.lines out.old out.new result
        (next_cells keys.now cells.now) }
{
    for index in 0..cells.len() {
        let cell = shown_under(keys, index, cells[index]);
        write_next_cell(&cell, out)?;
    }
    Ok(())
}

// The cell of the key at a place, as it is shown.
fn shown_under(keys: &[Key], index: usize, cell: Cell) -> Cell
    ensures { result ≡ option_map_or (λ key. shown key cell) (slice_get keys.now index) cell }
{
    match keys.get(index) {
        Some(key) => shown_cell(key, cell),
        None => cell,
    }
}

fn write_next_cell<W: WriteLines>(cell: &Cell, out: &mut W) -> io::Result<()>
    ensures { Tells W.lines out.old out.new result (next_cell cell.now) }
{
    write!(out, ",")?;
    write_cell(cell, out)
}

// The session of a number, from 0.
fn write_session<W: WriteLines>(origins: &[Origin], place: usize, out: &mut W) -> io::Result<()>
    ensures { Tells W.lines out.old out.new result
        (session_line origins.now place) }
{
    write_number(place as u128 + 1, out)?;
    write_origin_at(origins, place, out)?;
    writeln!(out, ": a counter is above 9223372036854775808")
}

#[tactic(auto, unfolding(report_writing::specs::Origins::number_text))]
fn write_number<W: WriteLines>(session: u128, out: &mut W) -> io::Result<()>
    ensures { Tells W.lines out.old out.new result (number_text session) }
{
    write!(out, "collectd: session {session}")
}

fn write_origin_at<W: WriteLines>(origins: &[Origin], place: usize, out: &mut W) -> io::Result<()>
    ensures { Tells W.lines out.old out.new result
        (origin_text (origin_at origins.now place)) }
{
    match origins.get(place) {
        Some(origin) => write_origin(origin, out),
        None => Ok(()),
    }
}
