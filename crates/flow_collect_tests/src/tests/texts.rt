//! Sources and plans, and what was collected as text, as the tests make and read them.

use flow_table::{Key, Method, Plan, PlanFault, Table};
use ipfix_elements::Cell;
use ipfix_session::{ScriptSource, SessionReport};
use ipfix_wire::ElementId;
use std::alloc::{AllocError, Global};
use worked_examples::text_of;

/// A source for each text, whose messages come in reads of 16 octets.
pub fn sources_of(alloc: Global, texts: &[&[&[u8]]]) -> Result<Vec<ScriptSource>, AllocError> {
    let mut sources = Vec::new(alloc);
    for messages in texts {
        sources.push(ScriptSource::new(text_of(alloc, messages)?, 16, None, None))?;
    }
    Ok(sources)
}

/// Intervals of a minute, by source address.
pub fn by_source(alloc: Global) -> Result<Plan, PlanFault> {
    let key = Key {
        element: ElementId::iana(8),
        prefix: None,
    };
    Plan::new(
        alloc,
        60_000,
        Method::Start,
        &[key],
        &[ElementId::iana(1)],
        4096,
    )
}

/// The rows of a table, each as its interval, address, sum and flows.
pub fn lines_of(alloc: Global, table: &Table) -> Result<String, AllocError> {
    let mut text = String::new(alloc);
    for row in &table.rows {
        let Some(Cell::Ipv4(address)) = row.key.first().copied() else {
            continue;
        };
        let [a, b, c, d] = address;
        let sum = row.sums.first().copied().unwrap_or(0);
        let line = format!(in alloc; "{}:{a}.{b}.{c}.{d}={sum},{};", row.interval, row.flows)?;
        text.push_str(&line)?;
    }
    Ok(text)
}

/// The messages and records of each report, and the number of its fault, or 0.
pub fn reports_of(alloc: Global, reports: &[SessionReport]) -> Result<String, AllocError> {
    let mut text = String::new(alloc);
    for report in reports {
        let fault = report.fault.map_or(0, |fault| fault.number());
        let line = format!(in alloc; "{},{},{fault};", report.messages, report.delivered)?;
        text.push_str(&line)?;
    }
    Ok(text)
}

/// How many reports have a fault.
pub fn count_faults(reports: &[SessionReport]) -> usize {
    let mut count = 0usize;
    for report in reports {
        if report.fault.is_some() {
            count = count.saturating_add(1);
        }
    }
    count
}
