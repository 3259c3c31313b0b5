//! What a receipt says of the table of a run.

ghost use Rattle.std.specs.Prelude.{◌≡◌, get_or, map, string_bytes, sum_by, IfOk};
ghost use Rattle.element_registry.specs.Registries.{element_name};
ghost use Rattle.flow_table.specs.AddedUp.{rows_in};
ghost use Rattle.flow_table.specs.Fitting.{FitsPlan};
ghost use Rattle.table_receipts.specs.Values.{sum_value, table_value};
ghost use Rattle.command_collect.specs.Tables.{counts_of as counts, format_of as format, sum_at as sum_in, sums_of, table_of as table_in};

use crate::receipts::hashed_table::TextDigest;
use element_registry::Elements;
use flow_export::Format;
use flow_table::{FlatTable, Plan, Row, Tally};
use ipfix_wire::ElementId;
use output_tables::Output;
use std::alloc::{AllocError, Global};
use table_receipts::{CounterSum, RecordCounts, TableFormat, TableReceipt};

/// The table of a plan, by the digest of its text, with the names that `elements` gives counters. Its rows have the plan's
/// intervals.
pub fn table_of(
    alloc: Global,
    elements: &Elements,
    plan: &Plan,
    output: Output,
    text: TextDigest,
    table: &FlatTable,
) -> Result<TableReceipt, AllocError>
    requires { FitsPlan plan.now table.now }
    ensures { IfOk result (λ t. table_value t
        ≡ table_in elements.now plan.now output text table.now) }
{
    Ok(TableReceipt {
        format: format_of(output.format),
        time: output.time,
        into: None,
        octets: text.octets,
        sha256: text.sha256,
        rows: table.len() as u64,
        sums: sums_of(alloc, elements, plan.counters(), table)?,
        flows: total_of(alloc, table, &Flows)?,
    })
}

fn format_of(format_given: Format) -> TableFormat
    ensures { result ≡ format format_given }
{
    match format_given {
        Format::Csv => TableFormat::Csv,
        Format::Json => TableFormat::Json,
        Format::Ipfix => TableFormat::Ipfix,
    }
}

/// How many records are of each class.
pub fn counts_of(tally: Tally) -> RecordCounts
    ensures { result ≡ counts tally }
{
    RecordCounts {
        used: tally.used,
        options: tally.options,
        untimed: tally.untimed,
        backward: tally.backward,
        unkeyed: tally.unkeyed,
        too_long: tally.too_long,
    }
}

// What the rows add up to of each counter.
fn sums_of(
    alloc: Global,
    elements: &Elements,
    counters: &[ElementId],
    table: &FlatTable,
) -> Result<Vec<CounterSum>, AllocError>
    ensures { IfOk result (λ s. map sum_value s.items
        ≡ sums_of elements.now counters.now table.now) }
{
    let mut all = Vec::with_capacity(alloc, counters.len())?;
    let mut left = counters;
    let mut place = 0;
    while let Some((counter, later)) = left.split_first() {
        all.push(sum_of(alloc, elements, *counter, place, table)?)?;
        left = later;
        place += 1;
    }
    Ok(all)
}

fn sum_of(
    alloc: Global,
    elements: &Elements,
    counter: ElementId,
    place: usize,
    table: &FlatTable,
) -> Result<CounterSum, AllocError>
    ensures name { IfOk result (λ s. string_bytes s.name ≡ element_name elements.now counter) }
    ensures total { IfOk result (λ s. s.sum ≡ sum_in place (rows_in table.now)) }
{
    Ok(CounterSum {
        name: name_of(alloc, elements, counter)?,
        sum: total_of(alloc, table, &CounterAt(place))?,
    })
}

// The name of an element, or its numbers. It is UTF-8, and a vector fails only if memory runs out.
fn name_of(alloc: Global, elements: &Elements, element: ElementId) -> Result<String, AllocError>
    ensures { IfOk result (λ name. string_bytes name ≡ element_name elements.now element) }
{
    let mut octets = Vec::new(alloc);
    elements
        .write_name(element, &mut octets)
        .map_err(|_| AllocError)?;
    match String::from_utf8(octets) {
        Ok(name) => Ok(name),
        Err(_) => Err(AllocError),
    }
}

// A number of each row.
trait RowNumber {
    ghost use Rattle.std.specs.Prelude.{◌≡◌, ◌<◌, ◌^◌, ℕ};
    ghost use Rattle.flow_table.specs.SameTables.{RowValue, value_of};

    /// The number.
    ghost number: { Self → RowValue → ℕ };

    fn number_in(&self, row: &Row) -> u64
        ensures { result ≡ number self.now (value_of row.now) };
}

// The sum of the counter at a place of the plan.
#[derive(Clone, Copy)]
struct CounterAt(usize);

impl RowNumber for CounterAt {
    ghost number = { λ at row. get_or row.sums at.0 0 };

    fn number_in(&self, row: &Row) -> u64 {
        match row.sums.get(self.0) {
            Some(sum) => *sum,
            None => 0,
        }
    }
}

// The number of flows.
#[derive(Clone, Copy)]
struct Flows;

impl RowNumber for Flows {
    ghost number = { λ _ row. row.flows };

    fn number_in(&self, row: &Row) -> u64 {
        row.flows
    }
}

// What the rows add up to of a number.
fn total_of<N: RowNumber>(alloc: Global, table: &FlatTable, numbers: &N) -> Result<u128, AllocError>
    ensures { IfOk result (λ total. total ≡ sum_by (N.number numbers.now) (rows_in table.now)) }
{
    let mut row = Row {
        interval: 0,
        key: Vec::new(alloc),
        sums: Vec::new(alloc),
        flows: 0,
    };
    let mut total: u128 = 0;
    for index in 0..table.len() {
        table.row_at(index, &mut row)?;
        total += u128::from(numbers.number_in(&row));
    }
    Ok(total)
}
