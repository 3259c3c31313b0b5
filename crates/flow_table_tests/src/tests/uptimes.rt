//! Times of flows that count milliseconds from when the exporter was started: flowEndSysUpTime (21), flowStartSysUpTime
//! (22) and systemInitTimeMilliseconds (160).

use element_registry::Elements;
use flow_table::{Choices, Key, Method, Partial, Plan, PlanFault, Times, Totals};
use ipfix_message::{DataRecord, Fields};
use ipfix_wire::ElementId;
use std::alloc::{AllocError, Global};
use std::process::Abort;
use std::test::Fail;

/// All messages are exported at 1,700,000,100 s.
const EXPORT_TIME: u32 = 1_700_000_100;

/// When the exporter was started.
const STARTED: (u16, Value) = (160, Value::Eight(1_700_000_000_123));

/// In milliseconds 2^32 before a second after the export time, less 704: 1,700,000,101,000 - 4,294,967,296 - 704.
const LONG_AGO: (u16, Value) = (160, Value::Eight(1_695_705_133_000));

/// A start and an end, by uptime.
const START: (u16, Value) = (22, Value::Four(90_000));

const END: (u16, Value) = (21, Value::Four(95_500));

/// The same as times.
const FROM: u64 = 1_700_000_090_123;

const TO: u64 = 1_700_000_095_623;

#[derive(Clone, Copy)]
enum Value {
    Three([u8; 3]),
    Four(u32),
    Eight(u64),
}

/// The fields of a flow, and when it starts and ends, if it is timed.
type Sent = (&'static str, &'static [(u16, Value)], Option<(u64, u64)>);

const FLOWS: [Sent; 22] = [
    ("uptimes", &[START, END, STARTED], Some((FROM, TO))),
    ("no start of the exporter", &[START, END], None),
    (
        "an exporter's start in four octets",
        &[START, END, (160, Value::Four(1_700_000_000))],
        None,
    ),
    (
        "the first of two starts of the exporter",
        &[START, END, STARTED, LONG_AGO],
        Some((FROM, TO)),
    ),
    // 90,000 is 0x015f90, and 95,500 is 0x01750c.
    (
        "three octets",
        &[
            (22, Value::Three([0x01, 0x5f, 0x90])),
            (21, Value::Three([0x01, 0x75, 0x0c])),
            STARTED,
        ],
        Some((FROM, TO)),
    ),
    (
        "eight octets",
        &[(22, Value::Eight(90_000)), END, STARTED],
        None,
    ),
    (
        "an end a second after the export",
        &[START, (21, Value::Four(100_877)), STARTED],
        Some((FROM, 1_700_000_101_000)),
    ),
    (
        "an end a second and a millisecond after the export",
        &[START, (21, Value::Four(100_878)), STARTED],
        None,
    ),
    (
        "the first end that is not so long ago",
        &[(22, Value::Four(0)), (21, Value::Four(705)), LONG_AGO],
        Some((1_695_705_133_000, 1_695_705_133_705)),
    ),
    (
        "an end that is so long ago",
        &[(22, Value::Four(0)), (21, Value::Four(704)), LONG_AGO],
        None,
    ),
    // It ends when the exporter is up for 2^32 + 200 ms.
    (
        "an uptime that begins anew during the flow",
        &[
            (22, Value::Four(u32::MAX)),
            (21, Value::Four(200)),
            LONG_AGO,
        ],
        None,
    ),
    (
        "times in milliseconds and seconds",
        &[
            START,
            END,
            STARTED,
            (152, Value::Eight(1_700_000_091_000)),
            (151, Value::Four(1_700_000_096)),
        ],
        Some((1_700_000_091_000, 1_700_000_096_000)),
    ),
    (
        "times before the export time",
        &[
            START,
            END,
            STARTED,
            (158, Value::Four(9_000_000)),
            (159, Value::Four(4_000_001)),
        ],
        Some((1_700_000_091_000, 1_700_000_095_999)),
    ),
    (
        "an end and a duration",
        &[END, STARTED, (161, Value::Four(1500))],
        Some((1_700_000_094_123, TO)),
    ),
    (
        "a start and a duration",
        &[START, STARTED, (161, Value::Four(1500))],
        Some((FROM, 1_700_000_091_623)),
    ),
    (
        "a start and a duration into the future",
        &[START, STARTED, (161, Value::Four(10_878))],
        None,
    ),
    (
        "an end that is so long ago, and a duration",
        &[
            (22, Value::Four(0)),
            (21, Value::Four(704)),
            LONG_AGO,
            (161, Value::Four(704)),
        ],
        None,
    ),
    (
        "both and another duration",
        &[START, END, STARTED, (161, Value::Four(1500))],
        Some((FROM, TO)),
    ),
    (
        "a start, and an end in milliseconds",
        &[START, STARTED, (153, Value::Eight(1_700_000_095_000))],
        Some((FROM, 1_700_000_095_000)),
    ),
    // The uptime is 0 again at 1,700,000,100,296.
    (
        "the last start of an uptime before an end in milliseconds",
        &[
            (22, Value::Four(0)),
            LONG_AGO,
            (153, Value::Eight(1_700_000_100_295)),
        ],
        Some((1_695_705_133_000, 1_700_000_100_295)),
    ),
    (
        "one of two starts before an end in milliseconds",
        &[
            (22, Value::Four(0)),
            LONG_AGO,
            (153, Value::Eight(1_700_000_100_296)),
        ],
        None,
    ),
    (
        "an end before the start",
        &[(22, Value::Four(95_501)), END, STARTED],
        None,
    ),
];

fn push_value(fields: &mut Fields, element: ElementId, value: Value) -> Result<(), AllocError> {
    match value {
        Value::Three(octets) => fields.push(element, &octets),
        Value::Four(n) => fields.push(element, &n.to_be_bytes()),
        Value::Eight(n) => fields.push(element, &n.to_be_bytes()),
    }
}

// The fields of a flow of one packet.
fn push_flow(fields: &mut Fields, sent: &[(u16, Value)]) -> Result<(), AllocError> {
    for (number, value) in sent {
        push_value(fields, ElementId::iana(*number), *value)?;
    }
    fields.push(ElementId::iana(4), &[17])?;
    fields.push(ElementId::iana(2), &[1])
}

// A flow of one packet.
fn record(alloc: Global, sent: &[(u16, Value)]) -> Result<DataRecord, AllocError> {
    let mut fields = Fields::new(alloc);
    push_flow(&mut fields, sent)?;
    Ok(DataRecord {
        domain: 1,
        export_time: EXPORT_TIME,
        template: 256,
        scope: 0,
        fields,
    })
}

// A plan whose intervals are a millisecond each.
fn plan_of(alloc: Global, times: Times, method: Method) -> Result<Plan, PlanFault> {
    let choices = Choices {
        times,
        totals: Totals::Refused,
    };
    let protocol = Key {
        element: ElementId::iana(4),
        prefix: None,
    };
    let elements = Elements::built_in(alloc);
    let packets = ElementId::iana(2);
    Plan::with_elements(
        alloc,
        &elements,
        1,
        method,
        &[protocol],
        &[packets],
        1,
        choices,
    )
}

// The only interval of a flow.
fn interval(
    alloc: Global,
    times: Times,
    method: Method,
    sent: &[(u16, Value)],
) -> Result<Option<u64>, Fail> {
    let plan = plan_of(alloc, times, method)?;
    let mut partial = Partial::new(alloc, &plan)?;
    partial.add(&record(alloc, sent)?)?;
    let table = partial.finish()?;
    Ok(table.rows.first().map(|row| row.interval))
}

// That a flow starts and ends then.
fn assert_times(rt: &impl Abort, alloc: Global, sent: Sent) -> Result<(), Fail> {
    let (what, fields, times) = sent;
    let start = interval(alloc, Times::All, Method::Start, fields)?;
    let end = interval(alloc, Times::All, Method::End, fields)?;
    let want = match times {
        Some((start, end)) => (Some(start), Some(end)),
        None => (None, None),
    };
    assert_eq!(rt; (start, end), want, "{what}");
    Ok(())
}

#[test]
fn uptimes_are_times_where_they_are_known(rt: HostRuntime) -> Result<(), Fail> {
    let alloc = rt.alloc();
    for sent in FLOWS {
        assert_times(&rt, alloc, sent)?;
    }
    Ok(())
}

#[test]
fn uptimes_are_no_times_by_default(rt: HostRuntime) -> Result<(), Fail> {
    let sent = [START, END, STARTED];
    let start = interval(rt.alloc(), Times::Basic, Method::Start, &sent)?;
    assert!(rt; start.is_none());
    Ok(())
}
