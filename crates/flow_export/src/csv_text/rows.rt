//! Rows as lines of CSV. No text of a row needs quotes (`nothing_is_quoted`), so a line is its fields, with commas
//! between them.

ghost use Rattle.std.specs.Prelude.{◌≡◌, ◌++◌, OnOk, flat_map, length};
ghost use Rattle.std.specs.Fmt.{decimal};
ghost use Rattle.flow_export.specs.CsvText.{row_line_in};
ghost use Rattle.flow_export.specs.Written.{interval_texts, next_cell, next_cells, next_number};

use crate::address_text::append_ipv4;
use crate::intervals::Intervals;
use crate::row_lines::RowLines;
use crate::shown_cells::shown_cell;
use flow_table::{Key, Plan, Row};
use ipfix_elements::{Cell, write_cell};
use itoa::Buffer;
use std::alloc::AllocError;

/// Makes lines of CSV, for any plan.
#[derive(Clone, Copy)]
pub struct CsvLines<'a> {
    pub intervals: Intervals<'a>,
}

impl RowLines for CsvLines<'_> {
    ghost is_for = { λ _ _. Unit {0} };

    ghost front_of = { λ lines. interval_texts lines.intervals };

    ghost line_of = { λ lines. row_line_in lines.intervals };

    // The first and the last millisecond.
    fn append_front(
        &self,
        plan: &Plan,
        interval: u64,
        out: &mut Vec<u8>,
    ) -> Result<(), AllocError> {
        append_number(self.intervals.first(plan, interval), out)?;
        append_next_number(self.intervals.last(plan, interval), out)
    }

    // Its key, its sums and the number of its flows.
    fn append_rest(&self, plan: &Plan, row: &Row, out: &mut Vec<u8>) -> Result<(), AllocError> {
        append_cells(plan.keys(), &row.key, out)?;
        append_numbers(&row.sums, out)?;
        append_next_number(row.flows, out)?;
        out.push(b'\n')?;
        Ok(())
    }
}

// Appends a comma and a cell for each, as it is shown.
fn append_cells(keys: &[Key], cells: &[Cell], out: &mut Vec<u8>) -> Result<(), AllocError>
    requires { length keys.now ≡ length cells.now }
    ensures { OnOk result (out.new.items ≡ out.old.items ++ next_cells keys.now cells.now) }
{
    for index in 0..cells.len() {
        let cell = shown_cell(&keys[index], cells[index]);
        append_next_cell(&cell, out)?;
    }
    Ok(())
}

// Appends a cell that follows another field. (Numbers and IPv4 addresses go past the function for any
// cell: an `io::Result` has 96 octets, which are copied where a call answers one.)
#[tactic(auto, unfolding(ipfix_elements::specs::Texts::cell_text))]
fn append_next_cell(cell: &Cell, out: &mut Vec<u8>) -> Result<(), AllocError>
    ensures { OnOk result (out.new.items ≡ out.old.items ++ next_cell cell.now) }
{
    out.push(b',')?;
    match cell {
        Cell::Number(number) => append_number(*number, out),
        Cell::Ipv4(address) => append_ipv4(address, out),
        // A vector fails only if memory runs out.
        Cell::Ipv6(_) | Cell::Mac(_) => write_cell(cell, out).map_err(|_| AllocError),
    }
}

// Appends a comma and a number for each.
fn append_numbers(numbers: &[u64], out: &mut Vec<u8>) -> Result<(), AllocError>
    ensures { OnOk result (out.new.items ≡ out.old.items ++ flat_map next_number numbers.now) }
{
    for number in numbers {
        append_next_number(*number, out)?;
    }
    Ok(())
}

// Appends a number that follows another field.
fn append_next_number(number: u64, out: &mut Vec<u8>) -> Result<(), AllocError>
    ensures { OnOk result (out.new.items ≡ out.old.items ++ next_number number) }
{
    out.push(b',')?;
    append_number(number, out)
}

// Appends the digits of a number.
fn append_number(number: u64, out: &mut Vec<u8>) -> Result<(), AllocError>
    ensures { OnOk result (out.new.items ≡ out.old.items ++ decimal number) }
{
    out.extend_from_slice(Buffer::new().format(number).as_bytes())
}
