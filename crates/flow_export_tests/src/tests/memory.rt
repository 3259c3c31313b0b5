//! What is answered where memory runs out: `tests/gate/refusals` refuses each allocation of
//! these calls in turn.

ghost use Rattle.flow_table.specs.Fitting.{FitsPlan};

use super::tables::{TIME, by_source, table_of_minutes, write_as};
use flow_export::{AnyTable, Format, ipfix_bytes, write_csv};
use flow_table::{Plan, Table};
use std::alloc::Global;
use std::io::{self, ErrorKind, Write};
use std::test::*;

const CSV: &[u8] = b"start,end,sourceIPv4Address,octetDeltaCount,flows
0,59999,192.0.2.1,1500,1
";

const JSON: &[u8] =
    br#"{"start":0,"end":59999,"sourceIPv4Address":"192.0.2.1","octetDeltaCount":1500,"flows":1}
"#;

// The template, and a row.
const IPFIX: &[u8] = &[
    0, 10, 0, 44, 0x65, 0x53, 0xf1, 0, 0, 0, 0, 0, 0, 0, 0, 0, 0, 2, 0, 28, 1, 0, 0, 5, 0, 0x98, 0,
    8, 0, 0x99, 0, 8, 0, 8, 0, 4, 0, 1, 0, 8, 1, 0x77, 0, 8, 0, 10, 0, 56, 0x65, 0x53, 0xf1, 0, 0,
    0, 0, 0, 0, 0, 0, 0, 1, 0, 0, 40, 0, 0, 0, 0, 0, 0, 0, 0, 0, 0, 0, 0, 0, 0, 0xea, 0x5f, 192, 0,
    2, 1, 0, 0, 0, 0, 0, 0, 5, 0xdc, 0, 0, 0, 0, 0, 0, 0, 1,
];

/// Takes what is still to come, and refuses anything else. It takes no memory.
#[derive(Drop)]
struct Expecting {
    rest: &'static [u8],
}

impl Write for Expecting {
    fn write(&mut self, octets: &[u8]) -> io::Result<usize> {
        let Some(rest) = self.rest.strip_prefix(octets) else {
            return Err(io::Error::from(ErrorKind::InvalidData));
        };
        self.rest = rest;
        Ok(octets.len())
    }

    fn flush(&mut self) -> io::Result<()> {
        Ok(())
    }
}

// `right` if an export wrote what it should, `OutOfMemory` if it answers so, and else `wrong`.
fn written(
    alloc: Global,
    plan: &Plan,
    table: &Table,
    format: Format,
    rest: &'static [u8],
) -> &'static str
    requires { FitsPlan plan.now table.now }
{
    let mut out = Expecting { rest };
    let result = match format {
        Format::Csv => write_csv(alloc, plan, table, &mut out),
        _ => write_as(alloc, plan, &AnyTable::Rows(table), format, &mut out),
    };
    match result {
        Ok(()) if out.rest.is_empty() => "right",
        Ok(()) => "wrong",
        Err(fault) => fault.name(),
    }
}

// The same of the octets of an export.
fn made(alloc: Global, plan: &Plan, table: &Table) -> &'static str
    requires { FitsPlan plan.now table.now }
{
    match ipfix_bytes(alloc, plan, table, TIME) {
        Ok(octets) => {
            if octets.as_slice() == IPFIX {
                "right"
            } else {
                "wrong"
            }
        }
        Err(fault) => fault.name(),
    }
}

#[test]
fn exports_with_refused_memory(rt: HostRuntime) -> Result<(), Fail> {
    let alloc = rt.alloc();
    let plan = by_source(alloc)?;
    let table = table_of_minutes(alloc, &plan, 1)?;
    let csv = written(alloc, &plan, &table, Format::Csv, CSV);
    let json = written(alloc, &plan, &table, Format::Json, JSON);
    let ipfix = written(alloc, &plan, &table, Format::Ipfix, IPFIX);
    for (name, word) in [
        ("write_csv", csv),
        ("JSON", json),
        ("IPFIX", ipfix),
        ("ipfix_bytes", made(alloc, &plan, &table)),
    ] {
        assert!(rt; matches!(word, "right" | "OutOfMemory"), "{name}: {word}");
        let _ = eprintln!(rt; "{name}: {word}");
    }
    Ok(())
}
