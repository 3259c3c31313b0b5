//! Tables that refuse a sum, and rows of several tables that are added up.

ghost use Rattle.std.specs.Prelude.{◌≡◌, ◌<◌, All, IfOk};
ghost use Rattle.flow_table.specs.Fitting.{FitsPlan};
ghost use Rattle.flow_table.specs.RowTotals.{totals_plan};
ghost use Rattle.flow_table.specs.declared.table.Row.{Row as RowRecord};

use super::records::{by_source, flow, push_row, text_of};
use flow_table::{
    FlatTable, Method, Missing, Partial, Plan, Row, RowTotals, Table, TableFault, Tally,
    has_great_counter,
};
use ipfix_elements::Cell;
use ipfix_wire::ElementId;
use std::alloc::{AllocError, Global};
use std::process::Abort;
use std::test::Fail;

// The table of a flow in the first minute and one in the second.
fn table_of_two(alloc: Global, plan: &Plan, octets: u64) -> Result<Table, Fail>
    ensures fits { IfOk result (FitsPlan plan.now) }
    ensures some { IfOk result (λ table. All (λ (row : RowRecord). 0 < row.flows) table.rows.items) }
{
    let mut partial = Partial::new(alloc, plan)?;
    partial.add(&flow(alloc, 61_000, 61_000, 1)?)?;
    partial.add(&flow(alloc, 1000, 1000, octets)?)?;
    Ok(partial.finish()?)
}

fn add_all(totals: &mut RowTotals, table: &Table) -> Result<(), TableFault>
    requires fits { FitsPlan (totals_plan totals.old) table.now }
    requires some { All (λ (row : RowRecord). 0 < row.flows) table.now.rows.items }
    ensures { totals_plan totals.new ≡ totals_plan totals.old }
{
    for i in 0..table.rows.len() {
        totals.add(&table.rows[i])?;
    }
    Ok(())
}

// The rows of two such tables, added up, or the name of the fault.
fn added_up(alloc: Global, octets: u64, others: u64) -> Result<String, Fail> {
    let plan = by_source(alloc, Method::Start)?;
    let mut totals = RowTotals::new(alloc, &plan)?;
    let first = table_of_two(alloc, &plan, octets)?;
    let second = table_of_two(alloc, &plan, others)?;
    add_all(&mut totals, &first)?;
    if let Err(fault) = add_all(&mut totals, &second) {
        return Ok(String::from_str(alloc, fault.name())?);
    }
    let table = totals.finish(Tally::EMPTY, Missing::NONE)?.into_table()?;
    Ok(text_of(alloc, &table.rows)?)
}

fn assert_added(
    rt: &impl Abort,
    alloc: Global,
    octets: u64,
    others: u64,
    want: &str,
) -> Result<(), Fail> {
    assert_eq!(rt; added_up(alloc, octets, others)?.as_str(), want);
    Ok(())
}

#[test]
fn adds_up_rows_to_the_limit_and_refuses_more(rt: HostRuntime) -> Result<(), Fail> {
    let alloc = rt.alloc();
    let largest = "0:192.0.2.1=18446744073709551615,2;1:192.0.2.1=2,2;";
    assert_added(&rt, alloc, 1500, 500, "0:192.0.2.1=2000,2;1:192.0.2.1=2,2;")?;
    assert_added(&rt, alloc, u64::MAX, 0, largest)?;
    assert_added(&rt, alloc, u64::MAX, 1, "SumTooLarge")
}

// The rows of a table, each of which is left in the same row.
fn text_in_turn(alloc: Global, table: &FlatTable) -> Result<String, Fail> {
    let mut text = String::new(alloc);
    let mut row = Row::empty(alloc);
    for index in 0..table.len() {
        table.row_at(index, &mut row)?;
        push_row(alloc, &row, &mut text)?;
    }
    Ok(text)
}

fn add_three(alloc: Global, partial: &mut Partial) -> Result<(), Fail> {
    partial.add(&flow(alloc, 61_000, 61_000, 1)?)?;
    partial.add(&flow(alloc, 1000, 1000, 7)?)?;
    partial.add(&flow(alloc, 2000, 2000, 5)?)?;
    Ok(())
}

// The table of these three.
fn table_of_three(alloc: Global) -> Result<FlatTable, Fail> {
    let mut partial = Partial::new(alloc, &by_source(alloc, Method::Start)?)?;
    add_three(alloc, &mut partial)?;
    Ok(partial.finish_flat()?)
}

#[test]
fn rows_come_one_by_one_or_all_at_once(rt: HostRuntime) -> Result<(), Fail> {
    let table = table_of_three(rt.alloc())?;
    let used = table.tally().used;
    let one_by_one = text_in_turn(rt.alloc(), &table)?;
    let all = text_of(rt.alloc(), &table.into_table()?.rows)?;
    let want = "0:192.0.2.1=12,2;1:192.0.2.1=1,1;";
    assert_eq!(rt; (one_by_one.as_str(), all.as_str(), used), (want, want, 3));
    Ok(())
}

// Adds two flows whose octets are 2^64.
fn add_largest(alloc: Global, partial: &mut Partial) -> Result<(), AllocError> {
    let _ = partial.add(&flow(alloc, 1000, 2000, u64::MAX)?);
    let _ = partial.add(&flow(alloc, 1000, 2000, 1)?);
    Ok(())
}

// The number of the fault of a partial table of these.
fn fault_of_largest(alloc: Global) -> Result<Option<u8>, Fail> {
    let plan = by_source(alloc, Method::Start)?;
    let mut partial = Partial::new(alloc, &plan)?;
    add_largest(alloc, &mut partial)?;
    Ok(partial.fault().map(|fault| fault.number()))
}

#[test]
fn a_partial_keeps_its_fault(rt: HostRuntime) -> Result<(), Fail> {
    assert_eq!(rt; fault_of_largest(rt.alloc())?, Some(2));
    Ok(())
}

// The interval and the key of the row of which a partial table says that it is too large.
fn large_row(partial: &Partial) -> Result<Option<(u64, Option<Cell>)>, Fail> {
    match partial.large_row()? {
        Some(row) => Ok(Some((row.interval, row.key.first().copied()))),
        None => Ok(None),
    }
}

// The row that is too large, of a flow over three minutes of which the second has no room, and of two tables that are
// merged.
#[test]
fn a_row_too_large_is_named(rt: HostRuntime) -> Result<(), Fail> {
    let alloc = rt.alloc();
    let plan = by_source(alloc, Method::Uniform)?;
    let second = Some((1, Some(Cell::Ipv4([192, 0, 2, 1]))));
    let mut partial = Partial::new(alloc, &plan)?;
    partial.add(&flow(alloc, 61_000, 62_000, u64::MAX)?)?;
    assert_eq!(rt; large_row(&partial)?, None);
    assert!(rt; partial.add(&flow(alloc, 0, 179_999, 3)?).is_err());
    assert_eq!(rt; large_row(&partial)?, second);
    let mut first = Partial::new(alloc, &plan)?;
    first.add(&flow(alloc, 1000, 1000, 7)?)?;
    first.add(&flow(alloc, 61_000, 62_000, u64::MAX)?)?;
    let mut other = Partial::new(alloc, &plan)?;
    other.add(&flow(alloc, 1000, 1000, 7)?)?;
    other.add(&flow(alloc, 61_000, 61_000, 1)?)?;
    assert!(rt; first.merge(other).is_err());
    assert_eq!(rt; large_row(&first)?, second);
    let mut last = Partial::new(alloc, &plan)?;
    assert!(rt; last.merge(partial).is_err());
    assert_eq!(rt; large_row(&last)?, second);
    Ok(())
}

#[test]
fn a_great_counter_is_above_half(rt: HostRuntime) -> Result<(), Fail> {
    for (octets, is_great) in [(1 << 63, false), ((1 << 63) + 1, true)] {
        let record = flow(rt.alloc(), 1000, 1000, octets)?;
        assert_eq!(rt; has_great_counter(&[ElementId::iana(1)], &record), is_great);
        assert!(rt; !has_great_counter(&[ElementId::iana(2)], &record));
    }
    Ok(())
}
