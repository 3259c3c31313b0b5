//! Rows as data records of IPFIX (RFC 7011, section 3.4.3).

ghost use Rattle.std.specs.Prelude.{◌≡◌, ◌+◌, ◌*◌, ◌≤◌, All, IfOk, OnOk, drop, flat_map, length, take};
ghost use Rattle.std.specs.List.{AllZip};
ghost use Rattle.flow_table.specs.Fitting.{IsCellOf};
ghost use Rattle.flow_table.specs.SameTables.{value_of};
ghost use Rattle.ipfix_elements.specs.Placed.{Placed};
ghost use Rattle.flow_export.specs.Fitting.{IsExportable};
ghost use Rattle.flow_export.specs.IpfixText.{number_octets, row_octets_in};
ghost use Rattle.flow_export.specs.RowOctets.{cells_octets, octets_of_rows, wide_octets};

use crate::intervals::Intervals;
use crate::ipfix_text::placing::{place_lowest, place_number};
use crate::ipfix_text::widths::width_of;
use crate::table_rows::TableRows;
use flow_table::{Plan, Row};
use ipfix_elements::{Cell, Kind, place};
use std::alloc::AllocError;

/// The rows in a message, but for the last one.
pub const ROWS_A_MESSAGE: usize = 100;

/// The most octets that a row has: two times, eight addresses, four sums and a number of flows.
pub const MOST_OCTETS_A_ROW: usize = 184;

/// Writes the octets of the next rows at a place, at most [`ROWS_A_MESSAGE`], passes over them, and answers
/// where they end.
pub fn place_rows(
    plan: &Plan,
    intervals: Intervals,
    rows: &mut TableRows,
    octets: &mut [u8],
    at: usize,
) -> Result<usize, AllocError>
    requires fit { All (IsExportable plan.now) rows.old }
    requires room { at + MOST_OCTETS_A_ROW * ROWS_A_MESSAGE ≤ length octets.old }
    ensures placed { IfOk result (Placed octets.old octets.new at
        (octets_of_rows intervals.entry plan.now (take ROWS_A_MESSAGE rows.old))) }
    ensures short { IfOk result (λ end. end ≤ at + MOST_OCTETS_A_ROW * ROWS_A_MESSAGE) }
    ensures passes { OnOk result (rows.new ≡ drop ROWS_A_MESSAGE rows.old) }
{
    let mut end = at;
    for _ in 0..ROWS_A_MESSAGE {
        end = place_next(plan, intervals, rows, octets, end)?;
    }
    Ok(end)
}

// Writes the octets of the next row, if there is one, and passes over it.
fn place_next(
    plan: &Plan,
    intervals: Intervals,
    rows: &mut TableRows,
    octets: &mut [u8],
    at: usize,
) -> Result<usize, AllocError>
    requires fit { All (IsExportable plan.now) rows.old }
    requires room { at + MOST_OCTETS_A_ROW ≤ length octets.old }
    ensures placed { IfOk result (Placed octets.old octets.new at
        (octets_of_rows intervals.entry plan.now (take 1 rows.old))) }
    ensures short { IfOk result (λ end. end ≤ at + MOST_OCTETS_A_ROW) }
    ensures passes { OnOk result (rows.new ≡ drop 1 rows.old) }
{
    let Some(row) = rows.first() else {
        return Ok(at);
    };
    let end = place_row(plan, intervals, row, octets, at);
    rows.pass()?;
    Ok(end)
}

// Writes the octets of a row: its interval, its key, its sums and the number of its flows.
fn place_row(plan: &Plan, intervals: Intervals, row: &Row, octets: &mut [u8], at: usize) -> usize
    requires fits { IsExportable plan.now (value_of row.now) }
    requires room { at + MOST_OCTETS_A_ROW ≤ length octets.old }
    ensures placed { Placed octets.old octets.new at
        (row_octets_in intervals.entry plan.now (value_of row.now)) result }
    ensures short { result ≤ at + MOST_OCTETS_A_ROW }
{
    let first = intervals.first(plan, row.interval);
    let times = place_number(first, octets, at);
    let times = place_number(intervals.last(plan, row.interval), octets, times);
    let key = place_cells(plan.kinds(), &row.key, octets, times);
    let sums = place_numbers(&row.sums, octets, key);
    place_number(row.flows, octets, sums)
}

// Writes the cells of a key, each as wide as its kind says.
fn place_cells(kinds: &[Kind], cells: &[Cell], octets: &mut [u8], at: usize) -> usize
    requires fit { AllZip IsCellOf kinds.now cells.now }
    requires room { at + 16 * length cells.now ≤ length octets.old }
    ensures placed { Placed octets.old octets.new at (cells_octets kinds.now cells.now) result }
    ensures short { result ≤ at + 16 * length cells.now }
{
    let mut end = at;
    for index in 0..cells.len() {
        end = place_cell(kinds[index], &cells[index], octets, end);
    }
    end
}

// Writes a cell as wide as its kind says.
fn place_cell(kind: Kind, cell: &Cell, octets: &mut [u8], at: usize) -> usize
    requires fits { IsCellOf kind cell.now }
    requires room { at + 16 ≤ length octets.old }
    ensures placed { Placed octets.old octets.new at (wide_octets (kind, cell.now)) result }
    ensures short { result ≤ at + 16 }
{
    match cell {
        Cell::Number(number) => place_lowest(*number, usize::from(width_of(kind)), octets, at),
        Cell::Ipv4(address) => place(address, octets, at),
        Cell::Ipv6(address) => place(address, octets, at),
        Cell::Mac(address) => place(address, octets, at),
    }
}

// Writes numbers in 64 bits each.
fn place_numbers(numbers: &[u64], octets: &mut [u8], at: usize) -> usize
    requires { at + 8 * length numbers.now ≤ length octets.old }
    ensures placed { Placed octets.old octets.new at (flat_map number_octets numbers.now) result }
    ensures end { result ≡ at + 8 * length numbers.now }
{
    let mut end = at;
    for number in numbers {
        end = place_number(*number, octets, end);
    }
    end
}
