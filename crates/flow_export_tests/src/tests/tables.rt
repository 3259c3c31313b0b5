//! Records, plans and tables, as the tests make them.

ghost use Rattle.std.specs.Prelude.{◌≡◌, IfOk};
ghost use Rattle.flow_table.specs.Fitting.{FitsPlan};
ghost use Rattle.flow_table.specs.Partials.{StandsFor, plan_of};
ghost use Rattle.flow_export.specs.AnyTables.{table_in};

use element_registry::Elements;
use flow_export::{AnyTable, ExportFault, Format, TableText, write_table};
use flow_table::{FlatTable, Key, Method, Partial, Plan, PlanFault, Table, TableFault};
use ipfix_message::{DataRecord, Fields};
use ipfix_wire::ElementId;
use std::alloc::{AllocError, Global};
use std::io::Write;
use std::test::Fail;

/// The export time of the tests.
pub const TIME: u32 = 1_700_000_000;

// A flow of 1500 octets from 192.0.2.1 at this millisecond.
fn flow(alloc: Global, time: u64) -> Result<DataRecord, AllocError> {
    let mut fields = Fields::new(alloc);
    fields.push(ElementId::iana(152), &time.to_be_bytes())?;
    fields.push(ElementId::iana(153), &time.to_be_bytes())?;
    fields.push(ElementId::iana(8), &[192, 0, 2, 1])?;
    fields.push(ElementId::iana(1), &1500_u64.to_be_bytes())?;
    Ok(DataRecord {
        domain: 1,
        export_time: TIME,
        template: 256,
        scope: 0,
        fields,
    })
}

/// A plan with intervals of a minute, by source address.
pub fn by_source(alloc: Global) -> Result<Plan, PlanFault> {
    let source = Key {
        element: ElementId::iana(8),
        prefix: None,
    };
    Plan::new(
        alloc,
        60_000,
        Method::Start,
        &[source],
        &[ElementId::iana(1)],
        4096,
    )
}

fn partial_of(alloc: Global, plan: &Plan, records: &[DataRecord]) -> Result<Partial, TableFault>
    ensures plan { IfOk result (λ partial. plan_of partial ≡ plan.now) }
    ensures records { IfOk result (λ partial. StandsFor partial records.now) }
{
    let mut partial = Partial::new(alloc, plan)?;
    for record in records {
        partial.add(record)?;
    }
    Ok(partial)
}

/// The table of records.
pub fn table_of(alloc: Global, plan: &Plan, records: &[DataRecord]) -> Result<Table, TableFault>
    ensures { IfOk result (FitsPlan plan.now) }
{
    let partial = partial_of(alloc, plan, records)?;
    partial.finish()
}

fn flat_of(alloc: Global, plan: &Plan, records: &[DataRecord]) -> Result<FlatTable, TableFault>
    ensures { IfOk result (FitsPlan plan.now) }
{
    let partial = partial_of(alloc, plan, records)?;
    partial.finish_flat()
}

fn flows(alloc: Global, count: u64) -> Result<Vec<DataRecord>, AllocError> {
    let mut records = Vec::new(alloc);
    for minute in 0..count {
        records.push(flow(alloc, minute.saturating_mul(60_000))?)?;
    }
    Ok(records)
}

/// The table of one flow in each of the first minutes.
pub fn table_of_minutes(alloc: Global, plan: &Plan, count: u64) -> Result<Table, Fail>
    ensures { IfOk result (FitsPlan plan.now) }
{
    let records = flows(alloc, count)?;
    Ok(table_of(alloc, plan, &records)?)
}

/// The flat table of the same flows.
pub fn flat_of_minutes(alloc: Global, plan: &Plan, count: u64) -> Result<FlatTable, Fail>
    ensures { IfOk result (FitsPlan plan.now) }
{
    let records = flows(alloc, count)?;
    Ok(flat_of(alloc, plan, &records)?)
}

/// Writes a table with the names of built-in elements.
pub fn write_as<W: Write>(
    alloc: Global,
    plan: &Plan,
    table: &AnyTable,
    format: Format,
    out: &mut W,
) -> Result<(), ExportFault>
    requires { FitsPlan plan.now (table_in table.now) }
{
    let elements = Elements::built_in(alloc);
    let text = match format {
        Format::Csv => TableText::Csv(&elements),
        Format::Json => TableText::Json(&elements),
        Format::Ipfix => TableText::Ipfix(TIME),
    };
    write_table(alloc, plan, table, &text, out)
}
