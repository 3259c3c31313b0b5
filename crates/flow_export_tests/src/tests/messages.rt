//! Tables as messages of IPFIX.

use super::tables::{TIME, by_source, table_of_minutes};
use flow_export::ipfix_bytes;
use ipfix_wire::read_header;
use std::alloc::Global;
use std::test::Fail;

// The length and the sequence number of the first messages of an export.
fn headers_of(alloc: Global, octets: &[u8]) -> Result<String, Fail> {
    let mut text = String::new(alloc);
    let mut rest = octets;
    for _ in 0..4 {
        if rest.len() < 16 {
            break;
        }
        let header = read_header(rest)?;
        let (length, sequence) = (header.length, header.sequence);
        text.push_str(&format!(in alloc; "{length},{sequence};")?)?;
        rest = rest.get(usize::from(length)..).unwrap_or(&[]);
    }
    Ok(text)
}

// The same of the table of so many rows.
fn messages_of(alloc: Global, rows: u64) -> Result<String, Fail> {
    let plan = by_source(alloc)?;
    let table = table_of_minutes(alloc, &plan, rows)?;
    let octets = ipfix_bytes(alloc, &plan, &table, TIME)?;
    headers_of(alloc, &octets)
}

#[test]
fn a_message_has_at_most_a_hundred_rows(rt: HostRuntime) -> Result<(), Fail> {
    for (rows, want) in [
        (0, "44,0;"),
        (1, "44,0;56,0;"),
        (100, "44,0;3620,0;"),
        (101, "44,0;3620,0;56,100;"),
    ] {
        assert_eq!(rt; messages_of(rt.alloc(), rows)?.as_str(), want);
    }
    Ok(())
}
