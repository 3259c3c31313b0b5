//! Records, plans and tables, as the tests make and read them.

use flow_table::{Key, Method, Plan, PlanFault, Row};
use ipfix_elements::Cell;
use ipfix_message::{DataRecord, Fields};
use ipfix_wire::ElementId;
use std::alloc::{AllocError, Global};

// The fields of such a flow.
fn push_flow(fields: &mut Fields, start: u64, end: u64, octets: u64) -> Result<(), AllocError> {
    fields.push(ElementId::iana(152), &start.to_be_bytes())?;
    fields.push(ElementId::iana(153), &end.to_be_bytes())?;
    fields.push(ElementId::iana(8), &[192, 0, 2, 1])?;
    fields.push(ElementId::iana(1), &octets.to_be_bytes())
}

/// A flow from `start` to `end` in milliseconds, from 192.0.2.1, with this many octets.
pub fn flow(alloc: Global, start: u64, end: u64, octets: u64) -> Result<DataRecord, AllocError> {
    let mut fields = Fields::new(alloc);
    push_flow(&mut fields, start, end, octets)?;
    Ok(DataRecord {
        domain: 1,
        export_time: 1_700_000_000,
        template: 256,
        scope: 0,
        fields,
    })
}

/// A plan with intervals of a minute, by source address.
pub fn by_source(alloc: Global, method: Method) -> Result<Plan, PlanFault> {
    let source = Key {
        element: ElementId::iana(8),
        prefix: None,
    };
    Plan::new(
        alloc,
        60_000,
        method,
        &[source],
        &[ElementId::iana(1)],
        4096,
    )
}

/// Rows as text: interval, address, sum and flows.
pub fn text_of(alloc: Global, rows: &[Row]) -> Result<String, AllocError> {
    let mut text = String::new(alloc);
    for row in rows {
        push_row(alloc, row, &mut text)?;
    }
    Ok(text)
}

/// Appends a row as text.
pub fn push_row(alloc: Global, row: &Row, text: &mut String) -> Result<(), AllocError> {
    let Some(Cell::Ipv4(address)) = row.key.first().copied() else {
        return Ok(());
    };
    let [a, b, c, d] = address;
    let sum = row.sums.first().copied().unwrap_or(0);
    let line = format!(in alloc; "{}:{a}.{b}.{c}.{d}={sum},{};", row.interval, row.flows)?;
    text.push_str(&line)
}
