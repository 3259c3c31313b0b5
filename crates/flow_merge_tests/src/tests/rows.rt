//! Rows that are read from records of exports.

use super::plans::{by_exporter, by_source};
use flow_export::Intervals;
use flow_merge::read_row;
use ipfix_elements::Cell;
use ipfix_message::{DataRecord, Fields};
use ipfix_wire::ElementId;
use std::alloc::{AllocError, Global};
use std::test::Fail;

/// 192.0.2.1, mapped into IPv6.
const MAPPED: [u8; 16] = [0, 0, 0, 0, 0, 0, 0, 0, 0, 0, 0xff, 0xff, 192, 0, 2, 1];

/// The last interval of a minute that begins before 2^50 ms, and the one after it.
const LAST_START: u64 = 1_125_899_906_820_000;

const NEXT_START: u64 = 1_125_899_906_880_000;

// A row of so many flows from 192.0.2 and a last octet.
fn record_of(
    alloc: Global,
    start: u64,
    end: u64,
    last: u8,
    flows: u64,
) -> Result<DataRecord, AllocError> {
    let mut fields = Fields::new(alloc);
    fields.push(ElementId::iana(152), &start.to_be_bytes())?;
    fields.push(ElementId::iana(153), &end.to_be_bytes())?;
    fields.push(ElementId::iana(44), &[192, 0, 2, last])?;
    fields.push(ElementId::iana(1), &1500_u64.to_be_bytes())?;
    fields.push(ElementId::iana(375), &flows.to_be_bytes())?;
    Ok(DataRecord {
        domain: 0,
        export_time: 1_700_000_000,
        template: 256,
        scope: 0,
        fields,
    })
}

// The interval and the flows of a row of networks, or the number and name of the fault.
fn row_of(alloc: Global, start: u64, end: u64, last: u8, flows: u64) -> Result<String, Fail> {
    let plan = by_source(alloc, Some(24))?;
    let data_record = record_of(alloc, start, end, last, flows)?;
    match read_row(alloc, &plan, Intervals::OfPlan, &data_record) {
        Ok(row) => {
            let (interval, flows) = (row.interval, row.flows);
            Ok(format!(in alloc; "{interval},{flows}")?)
        }
        Err(fault) => Ok(format!(in alloc; "{} {}", fault.number(), fault.name())?),
    }
}

// The first of several faults is answered.
#[test]
fn reads_rows_of_an_interval_of_the_plan(rt: HostRuntime) -> Result<(), Fail> {
    for (start, end, last, flows, want) in [
        (60_000, 119_999, 0, 1, "1,1"),
        (
            LAST_START,
            LAST_START + 59_999,
            0,
            u64::MAX,
            "18764998447,18446744073709551615",
        ),
        (NEXT_START, NEXT_START + 59_999, 0, 1, "4 Interval"),
        (60_000, 119_998, 1, 0, "4 Interval"),
        (60_000, 120_000, 0, 1, "4 Interval"),
        (60_001, 120_000, 0, 1, "4 Interval"),
        (60_000, 59_999, 0, 1, "4 Interval"),
        (u64::MAX, u64::MAX, 0, 1, "4 Interval"),
        (60_000, 119_999, 1, 0, "5 Prefix"),
        (60_000, 119_999, 0, 0, "6 Flows"),
    ] {
        assert_eq!(rt; row_of(rt.alloc(), start, end, last, flows)?.as_str(), want);
    }
    Ok(())
}

// A row of one flow whose key is an address of 16 octets, as the element of this number.
fn address_record(alloc: Global, number: u16) -> Result<DataRecord, AllocError> {
    let mut fields = Fields::new(alloc);
    fields.push(ElementId::iana(152), &60_000_u64.to_be_bytes())?;
    fields.push(ElementId::iana(153), &119_999_u64.to_be_bytes())?;
    fields.push(ElementId::iana(number), &MAPPED)?;
    fields.push(ElementId::iana(1), &1500_u64.to_be_bytes())?;
    fields.push(ElementId::iana(375), &1_u64.to_be_bytes())?;
    Ok(DataRecord {
        domain: 0,
        export_time: 1_700_000_000,
        template: 256,
        scope: 0,
        fields,
    })
}

// The key of the row that a record has under a plan by exporter, or the number and name of the fault.
fn key_of(alloc: Global, number: u16) -> Result<String, Fail> {
    let plan = by_exporter(alloc)?;
    match read_row(
        alloc,
        &plan,
        Intervals::OfPlan,
        &address_record(alloc, number)?,
    ) {
        Ok(row) if row.key.first() == Some(&Cell::Ipv6(MAPPED)) => {
            Ok(String::from_str(alloc, "192.0.2.1")?)
        }
        Ok(_) => Ok(String::from_str(alloc, "another row")?),
        Err(fault) => Ok(format!(in alloc; "{} {}", fault.number(), fault.name())?),
    }
}

// It is found as exporterIPv6Address, and as no other element.
#[test]
fn reads_rows_of_an_exporter(rt: HostRuntime) -> Result<(), Fail> {
    for (number, want) in [
        (131, "192.0.2.1"),
        (27, "3 Fields"),
        (130, "3 Fields"),
        (32768, "3 Fields"),
    ] {
        assert_eq!(rt; key_of(rt.alloc(), number)?.as_str(), want);
    }
    Ok(())
}
