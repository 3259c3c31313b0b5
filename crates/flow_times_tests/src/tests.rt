//! Times of flows, by IANA's registry and by records written by hand.

use flow_table::Times;
use flow_times::{
    NO_STARTS, NO_TIMES, StartCounts, TimeElement, TimeNotes, TimeNoting, TimesReport, is_timed,
    other_time,
};
use ipfix_message::{DataRecord, Fields};
use ipfix_wire::ElementId;
use std::alloc::{AllocError, Global};
use std::test::*;

// A record of a template with so many scope fields, with a field of each of these elements, of so many octets.
fn record(alloc: Global, scope: u16, elements: &[(u16, usize)]) -> Result<DataRecord, AllocError> {
    let octets = [0u8; 16];
    let mut fields = Fields::new(alloc);
    for (number, length) in elements {
        fields.push(ElementId::iana(*number), &octets[..(*length).min(16)])?;
    }
    Ok(DataRecord {
        domain: 1,
        export_time: 0,
        template: 256,
        scope,
        fields,
    })
}

// The rows of the registry.
const REGISTRY: [(u16, &str); 10] = [
    (154, "flowStartMicroseconds"),
    (156, "flowStartNanoseconds"),
    (158, "flowStartDeltaMicroseconds"),
    (22, "flowStartSysUpTime"),
    (155, "flowEndMicroseconds"),
    (157, "flowEndNanoseconds"),
    (159, "flowEndDeltaMicroseconds"),
    (21, "flowEndSysUpTime"),
    (161, "flowDurationMilliseconds"),
    (162, "flowDurationMicroseconds"),
];

// Each is found where it stands alone, and before those that come after it.
#[test]
fn elements_are_those_of_the_registry(rt: HostRuntime) -> Result<(), AllocError> {
    let mut last = 210;
    for (number, name) in REGISTRY {
        let item = record(rt.alloc(), 0, &[(last, 4), (number, 4), (162, 4)])?;
        let found = other_time(&item.fields);
        let is_found = found.is_some_and(|element| element.number() == number
            && element.name() == name);
        assert!(rt; is_found);
        last = 150;
    }
    Ok(())
}

// Milliseconds in 8 octets, or seconds in 4; other lengths are no times.
#[test]
fn both_times_are_needed(rt: HostRuntime) -> Result<(), AllocError> {
    let alloc = rt.alloc();
    assert!(rt; is_timed(&record(alloc, 0, &[(152, 8), (153, 8)])?));
    assert!(rt; is_timed(&record(alloc, 0, &[(152, 4), (150, 4), (153, 8)])?));
    assert!(rt; is_timed(&record(alloc, 0, &[(151, 4), (150, 4)])?));
    assert!(rt; !is_timed(&record(alloc, 0, &[(150, 4), (21, 4)])?));
    assert!(rt; !is_timed(&record(alloc, 0, &[(152, 16), (153, 16)])?));
    Ok(())
}

// What is told of these records under a plan that reads these times, with `-v`.
fn told(times: Times, records: &[DataRecord]) -> TimesReport {
    let mut notes = TimeNotes::new(TimeNoting::under(times, true));
    for item in records {
        notes.note(item);
    }
    notes.report()
}

fn untimed(element: TimeElement) -> TimesReport {
    TimesReport {
        untimed: Some(element),
        ..NO_TIMES
    }
}

// Options records are passed over, and flows without any time don't matter; a flow with its times ends it.
#[test]
fn the_first_time_is_told_if_none_is_timed(rt: HostRuntime) -> Result<(), AllocError> {
    let alloc = rt.alloc();
    let mut records = Vec::new(alloc);
    records.push(record(alloc, 1, &[(154, 8), (152, 8), (153, 8)])?)?;
    records.push(record(alloc, 0, &[(8, 4)])?)?;
    assert_eq!(rt; told(Times::Basic, &records), NO_TIMES);
    records.push(record(alloc, 0, &[(22, 4), (21, 4)])?)?;
    records.push(record(alloc, 0, &[(154, 8), (155, 8)])?)?;
    assert_eq!(rt;
        told(Times::Basic, &records),
        untimed(TimeElement::FlowStartSysUpTime)
    );
    records.push(record(alloc, 0, &[(150, 4), (151, 4)])?)?;
    records.push(record(alloc, 0, &[(154, 8), (155, 8)])?)?;
    assert_eq!(rt; told(Times::Basic, &records), NO_TIMES);
    Ok(())
}

// The first element of a start counts, or else of a duration; options records and flows without any don't.
#[test]
fn starts_are_counted(rt: HostRuntime) -> Result<(), AllocError> {
    let alloc = rt.alloc();
    let mut records = Vec::new(alloc);
    for element in [152, 150, 154, 156, 158, 22, 161, 162, 21, 155] {
        records.push(record(alloc, 0, &[(element, 4)])?)?;
    }
    records.push(record(alloc, 1, &[(152, 8)])?)?;
    records.push(record(alloc, 0, &[(161, 4), (22, 4), (153, 8)])?)?;
    let want = StartCounts {
        milliseconds: 1,
        seconds: 1,
        microseconds: 1,
        nanoseconds: 1,
        delta_microseconds: 1,
        sys_up_time: 2,
        duration_milliseconds: 1,
        duration_microseconds: 1,
    };
    let report = told(Times::All, &records);
    assert_eq!(rt; report.starts, want);
    assert_eq!(rt; report.untimed, None);
    assert_eq!(rt; told(Times::Basic, &records[..0]).starts, NO_STARTS);
    let mut notes = TimeNotes::new(TimeNoting::under(Times::All, false));
    notes.note(&records[0]);
    assert_eq!(rt; notes.report(), NO_TIMES);
    Ok(())
}
