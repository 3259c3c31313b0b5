//! Flat tables are written as tables of the same rows are.

ghost use Rattle.flow_table.specs.Fitting.{FitsPlan};
ghost use Rattle.flow_export.specs.AnyTables.{table_in};

use super::tables::{by_source, flat_of_minutes, table_of_minutes, write_as};
use flow_export::{AnyTable, ExportFault, Format, Intervals};
use flow_table::Plan;
use std::alloc::Global;
use std::test::Fail;

fn written(
    alloc: Global,
    plan: &Plan,
    table: &AnyTable,
    format: Format,
) -> Result<Vec<u8>, ExportFault>
    requires { FitsPlan plan.now (table_in table.now) }
{
    let mut out = Vec::new(alloc);
    write_as(alloc, plan, table, format, &mut out)?;
    Ok(out)
}

fn is_same(alloc: Global, format: Format, rows: u64) -> Result<bool, Fail> {
    let plan = by_source(alloc)?;
    let table = table_of_minutes(alloc, &plan, rows)?;
    let flat = flat_of_minutes(alloc, &plan, rows)?;
    let text = written(alloc, &plan, &AnyTable::Rows(&table), format)?;
    Ok(
        text == written(
            alloc,
            &plan,
            &AnyTable::Flat(&flat, Intervals::OfPlan),
            format,
        )?,
    )
}

// Lines that are written at once, and then some; whole messages, and one of a row.
#[test]
fn flat_tables_are_written_alike(rt: HostRuntime) -> Result<(), Fail> {
    for format in [Format::Csv, Format::Json, Format::Ipfix] {
        for rows in [0, 1, 100, 101, 1500] {
            assert!(rt; is_same(rt.alloc(), format, rows)?);
        }
    }
    Ok(())
}
