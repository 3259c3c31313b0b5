//! Tables whose plan names an element of a file.

ghost use Rattle.std.specs.Prelude.{◌≡◌, IfOk};
ghost use Rattle.flow_table.specs.Fitting.{FitsPlan};
ghost use Rattle.flow_export.specs.AnyTables.{table_in};

use super::tables::{flat_of_minutes, table_of_minutes};
use element_registry::{Elements, ElementsFault, add_file};
use flow_export::{AnyTable, ExportFault, Intervals, TableText, write_table};
use flow_table::{Choices, Key, Method, Plan, PlanFault};
use ipfix_wire::ElementId;
use std::alloc::Global;
use std::test::Fail;

const FILE: &str = "Enterprise,ElementID,Name,Abstract Data Type,Data Type Semantics
32473,5,siteOctets,unsigned64,deltaCounter
";

const CSV: &str = "start,end,sourceIPv4Address,e32473.siteOctets,flows
0,59999,192.0.2.1,0,1
";

const JSON: &str = "{\"start\":0,\"end\":59999,\"sourceIPv4Address\":\"192.0.2.1\",\
    \"e32473.siteOctets\":0,\"flows\":1}\n";

fn known(alloc: Global) -> Result<Elements, ElementsFault> {
    match add_file(alloc, Elements::built_in(alloc), FILE.as_bytes()) {
        Ok(added) => Ok(added.elements),
        Err(error) => Err(error.fault),
    }
}

// A plan by source address, with the counter of the file.
fn by_source(alloc: Global, elements: &Elements) -> Result<Plan, PlanFault> {
    let source = Key {
        element: ElementId::iana(8),
        prefix: None,
    };
    let site_octets = ElementId {
        pen: 32473,
        number: 5,
    };
    Plan::with_elements(
        alloc,
        elements,
        60_000,
        Method::Start,
        &[source],
        &[site_octets],
        4096,
        Choices::BASIC,
    )
}

// A table as CSV and, after it, as JSON.
fn texts(
    alloc: Global,
    elements: &Elements,
    plan: &Plan,
    table: &AnyTable,
) -> Result<Vec<u8>, ExportFault>
    requires { FitsPlan plan.now (table_in table.now) }
{
    let mut out = Vec::new(alloc);
    write_table(alloc, plan, table, &TableText::Csv(elements), &mut out)?;
    write_table(alloc, plan, table, &TableText::Json(elements), &mut out)?;
    Ok(out)
}

// A flow that lacks the counter counts 0.
#[test]
fn names_of_files_stand_in_texts(rt: HostRuntime) -> Result<(), Fail> {
    let alloc = rt.alloc();
    let elements = known(alloc)?;
    let plan = by_source(alloc, &elements)?;
    let want = format!(in alloc; "{CSV}{JSON}")?;
    let table = table_of_minutes(alloc, &plan, 1)?;
    let flat = flat_of_minutes(alloc, &plan, 1)?;
    let kept = texts(alloc, &elements, &plan, &AnyTable::Rows(&table))?;
    assert_eq!(rt; kept.as_slice(), want.as_bytes());
    let made = texts(
        alloc,
        &elements,
        &plan,
        &AnyTable::Flat(&flat, Intervals::OfPlan),
    )?;
    assert_eq!(rt; made.as_slice(), want.as_bytes());
    Ok(())
}
