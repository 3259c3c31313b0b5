//! Exports to a writer that fails at each of its calls in turn.

ghost use Rattle.flow_table.specs.Fitting.{FitsPlan};

use super::tables::{by_source, table_of_minutes, write_as};
use flow_export::{AnyTable, ExportFault, Format};
use flow_table::{Plan, Table};
use std::alloc::Global;
use std::test::Fail;
use worked_examples::FailingWriter;

// What a writer took that fails after so many calls, and the number of the fault, or 0.
fn written(alloc: Global, plan: &Plan, table: &Table, format: Format, calls: u64) -> (Vec<u8>, u8)
    requires { FitsPlan plan.now table.now }
{
    let mut out = FailingWriter::new(alloc, 1000, calls);
    let result = write_as(alloc, plan, &AnyTable::Rows(table), format, &mut out);
    let FailingWriter { taken, .. } = out;
    (taken, result.err().map_or(0, |fault| fault.number()))
}

// How many calls fail one by one, each after the beginning of the text, before the text is whole. 0 if
// one of them does something else.
fn count_failing_calls(alloc: Global, format: Format) -> Result<u64, Fail> {
    let plan = by_source(alloc)?;
    let table = table_of_minutes(alloc, &plan, 600)?;
    let (whole, _) = written(alloc, &plan, &table, format, u64::MAX);
    for calls in 0..200 {
        let (taken, fault) = written(alloc, &plan, &table, format, calls);
        if fault == 0 && taken.len() == whole.len() {
            return Ok(calls);
        }
        if fault != 2 || !whole.starts_with(taken.as_slice()) {
            break;
        }
    }
    Ok(0)
}

// At most a thousand octets a call: the texts have more than twenty thousand.
#[test]
fn each_write_of_an_export_fails(rt: HostRuntime) -> Result<(), Fail> {
    for format in [Format::Csv, Format::Json, Format::Ipfix] {
        assert!(rt; count_failing_calls(rt.alloc(), format)? > 20);
    }
    assert_eq!(rt; ExportFault::TooManyRows.name(), "TooManyRows");
    Ok(())
}
