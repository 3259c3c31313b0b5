//! Exports merged.

use super::plans::by_source;
use flow_table::Table;
use ipfix_session::ScriptSource;
use laws_merge::merge;
use std::alloc::{AllocError, Global};
use std::test::Fail;
use worked_examples::text_of;
use worked_examples::values::{EXPORT_ROW, EXPORT_TEMPLATE};

// The export of one flow, read seven octets at a time, so many times.
fn sources_of(alloc: Global, count: u64) -> Result<Vec<ScriptSource>, AllocError> {
    let mut sources = Vec::new(alloc);
    for _ in 0..count {
        let text = text_of(alloc, &[EXPORT_TEMPLATE, EXPORT_ROW])?;
        sources.push(ScriptSource::new(text, 7, None, None))?;
    }
    Ok(sources)
}

// The octets and flows of each row.
fn lines_of(alloc: Global, table: &Table) -> Result<String, AllocError> {
    let mut text = String::new(alloc);
    for row in &table.rows {
        let sum = row.sums.first().copied().unwrap_or(0);
        text.push_str(&format!(in alloc; "{sum},{};", row.flows)?)?;
    }
    Ok(text)
}

// The rows of so many exports of one flow, merged in at most so many reads each, or the number and name
// of the fault.
fn merged(alloc: Global, count: u64, reads: u64) -> Result<String, Fail> {
    let plan = by_source(alloc, None)?;
    match merge(alloc, &plan, sources_of(alloc, count)?, reads) {
        Ok(table) => Ok(lines_of(alloc, &table.into_table()?)?),
        Err(fault) => Ok(format!(in alloc; "{} {}", fault.number(), fault.name())?),
    }
}

#[test]
fn merging_adds_up_the_rows_of_exports(rt: HostRuntime) -> Result<(), Fail> {
    for (count, reads, want) in [
        (0, 1000, ""),
        (1, 1000, "1500,1;"),
        (200, 1000, "300000,200;"),
        (2, 10, "3 Session"),
    ] {
        assert_eq!(rt; merged(rt.alloc(), count, reads)?.as_str(), want);
    }
    Ok(())
}
