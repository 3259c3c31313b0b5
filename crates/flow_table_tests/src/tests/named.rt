//! Plans whose elements a file names: those of IANA's registry, and of RFC 5103 for a flow's way back.

ghost use Rattle.std.specs.Prelude.{◌<◌, ◌^◌, length};

use element_registry::{ElementKind, Elements, ElementsFault, Entry, add_file};
use flow_table::{Choices, Key, Method, Partial, Plan, PlanFault, Row, Table};
use ipfix_elements::{Cell, Kind, Width, name_of};
use ipfix_message::{DataRecord, Fields};
use ipfix_wire::ElementId;
use std::alloc::{AllocError, Global};
use std::process::Abort;
use std::test::Fail;

/// A truth value, a text, a delta counter and a total, and a counter, a port and an address of the way
/// back.
const FILE: &str = "Enterprise,ElementID,Name,Abstract Data Type,Data Type Semantics
,276,dataRecordsReliability,boolean,default
,82,interfaceName,string,default
,278,newConnectionDeltaCount,unsigned32,deltaCounter
,85,octetTotalCount,unsigned64,totalCounter
29305,1,reverseOctetDeltaCount,unsigned64,deltaCounter
29305,7,reverseSourceTransportPort,unsigned16,identifier
29305,8,reverseSourceIPv4Address,ipv4Address,default
";

/// The enterprise of a flow's way back.
const REVERSE: u32 = 29305;

const RELIABLE: ElementId = ElementId {
    pen: 0,
    number: 276,
};

const CONNECTIONS: ElementId = ElementId {
    pen: 0,
    number: 278,
};

const fn reverse(number: u16) -> ElementId {
    ElementId {
        pen: REVERSE,
        number,
    }
}

fn known(alloc: Global) -> Result<Elements, ElementsFault> {
    match add_file(alloc, Elements::built_in(alloc), FILE.as_bytes()) {
        Ok(added) => Ok(added.elements),
        Err(error) => Err(error.fault),
    }
}

// The plan of one key and one counter.
fn plan_of(
    alloc: Global,
    elements: &Elements,
    element: ElementId,
    prefix: Option<u8>,
    counter: ElementId,
) -> Result<Plan, PlanFault> {
    let key = Key { element, prefix };
    Plan::with_elements(
        alloc,
        elements,
        60_000,
        Method::Start,
        &[key],
        &[counter],
        4096,
        Choices::BASIC,
    )
}

fn fault_of(
    alloc: Global,
    elements: &Elements,
    element: ElementId,
    prefix: Option<u8>,
    counter: ElementId,
) -> &'static str {
    match plan_of(alloc, elements, element, prefix, counter) {
        Ok(_) => "none",
        Err(fault) => fault.name(),
    }
}

// That a plan of this key and this counter has this fault.
fn assert_fault(
    rt: &impl Abort,
    alloc: Global,
    elements: &Elements,
    (key, prefix): (ElementId, Option<u8>),
    counter: ElementId,
    want: &str,
) {
    let fault = fault_of(alloc, elements, key, prefix, counter);
    assert_eq!(rt; fault, want, "{}.{}", key.pen, key.number);
}

#[test]
fn what_a_file_names_may_be_a_key_or_a_counter(rt: HostRuntime) -> Result<(), Fail> {
    let alloc = rt.alloc();
    let elements = known(alloc)?;
    for (key, prefix, counter, want) in [
        (RELIABLE, None, CONNECTIONS, "none"),
        (reverse(7), None, reverse(1), "none"),
        (ElementId::iana(8), Some(24), reverse(1), "none"),
        // A text, an element without a row, and a number that is none of an element's.
        (ElementId::iana(82), None, CONNECTIONS, "KeyKind"),
        (reverse(9), None, CONNECTIONS, "KeyKind"),
        (ElementId::iana(0x8000 + 7), None, CONNECTIONS, "KeyKind"),
        // A time stays one.
        (ElementId::iana(152), None, CONNECTIONS, "KeyKind"),
        (reverse(8), Some(24), CONNECTIONS, "Prefix"),
        // A total, and a number that is no counter.
        (RELIABLE, None, ElementId::iana(85), "CounterKind"),
        (RELIABLE, None, reverse(7), "CounterKind"),
        (CONNECTIONS, None, CONNECTIONS, "Repeated"),
    ] {
        assert_fault(&rt, alloc, &elements, (key, prefix), counter, want);
    }
    Ok(())
}

#[test]
fn without_files_there_are_built_in_elements_alone(rt: HostRuntime) {
    let alloc = rt.alloc();
    let elements = Elements::built_in(alloc);
    let (port, octets) = (ElementId::iana(7), ElementId::iana(1));
    assert_fault(&rt, alloc, &elements, (RELIABLE, None), octets, "KeyKind");
    assert_fault(
        &rt,
        alloc,
        &elements,
        (port, None),
        CONNECTIONS,
        "CounterKind",
    );
    assert_fault(&rt, alloc, &elements, (port, None), octets, "none");
}

// That a plan has this kind of its only key.
fn assert_kind(
    rt: &impl Abort,
    alloc: Global,
    elements: &Elements,
    key: ElementId,
    want: Kind,
) -> Result<(), PlanFault> {
    let plan = plan_of(alloc, elements, key, None, ElementId::iana(1))?;
    assert_eq!(rt; plan.kinds().first().copied(), Some(want));
    Ok(())
}

#[test]
fn a_plan_has_the_kinds_of_its_keys(rt: HostRuntime) -> Result<(), Fail> {
    let alloc = rt.alloc();
    let elements = known(alloc)?;
    assert_kind(&rt, alloc, &elements, RELIABLE, Kind::Unsigned(Width::One))?;
    // A delta counter, of type unsigned32 in the file.
    assert_kind(
        &rt,
        alloc,
        &elements,
        CONNECTIONS,
        Kind::Unsigned(Width::Eight),
    )?;
    assert_kind(
        &rt,
        alloc,
        &elements,
        reverse(7),
        Kind::Unsigned(Width::Two),
    )?;
    assert_kind(&rt, alloc, &elements, reverse(8), Kind::Ipv4)?;
    Ok(())
}

// The fields of such a flow.
fn push_flow(fields: &mut Fields, reliable: u8, connections: &[u8]) -> Result<(), AllocError>
    requires { length connections.now < 2 ^ 16 }
{
    fields.push(ElementId::iana(152), &1000u64.to_be_bytes())?;
    fields.push(ElementId::iana(153), &2000u64.to_be_bytes())?;
    fields.push(RELIABLE, &[reliable])?;
    fields.push(CONNECTIONS, connections)
}

// A flow of the first minute with a truth value, and a number of connections.
fn flow(alloc: Global, reliable: u8, connections: &[u8]) -> Result<DataRecord, AllocError>
    requires { length connections.now < 2 ^ 16 }
{
    let mut fields = Fields::new(alloc);
    push_flow(&mut fields, reliable, connections)?;
    Ok(DataRecord {
        domain: 1,
        export_time: 1_700_000_000,
        template: 256,
        scope: 0,
        fields,
    })
}

fn parts_of(row: &Row) -> (Option<Cell>, Option<u64>, u64) {
    (
        row.key.first().copied(),
        row.sums.first().copied(),
        row.flows,
    )
}

// A plan of truth values, and of the numbers of connections.
fn plan_of_connections(alloc: Global) -> Result<Plan, Fail> {
    let elements = known(alloc)?;
    Ok(plan_of(alloc, &elements, RELIABLE, None, CONNECTIONS)?)
}

fn add_three(alloc: Global, partial: &mut Partial) -> Result<(), Fail> {
    partial.add(&flow(alloc, 1, &10u32.to_be_bytes())?)?;
    partial.add(&flow(alloc, 2, &5u32.to_be_bytes())?)?;
    partial.add(&flow(alloc, 1, &7u32.to_be_bytes())?)?;
    Ok(())
}

// The table of these three.
fn table_of_three(alloc: Global) -> Result<Table, Fail> {
    let plan = plan_of_connections(alloc)?;
    let mut partial = Partial::new(alloc, &plan)?;
    add_three(alloc, &mut partial)?;
    Ok(partial.finish()?)
}

#[test]
fn truth_values_are_told_apart_and_deltas_added_up(rt: HostRuntime) -> Result<(), Fail> {
    let table = table_of_three(rt.alloc())?;
    let rows = [
        table.rows.first().map(parts_of),
        table.rows.get(1).map(parts_of),
    ];
    let want = [
        Some((Some(Cell::Number(1)), Some(17), 2)),
        Some((Some(Cell::Number(2)), Some(5), 1)),
    ];
    assert_eq!(rt; (rows, table.rows.len()), (want, 2));
    Ok(())
}

/// What octets are as the counter of a flow: its number, unless they are none.
const COUNTED: [(&[u8], u64, u64); 6] = [
    (&[7], 7, 0),
    (&[0, 0, 1, 0], 256, 0),
    // 5,000,000,000 in five octets, and in eight.
    (&[1, 0x2a, 5, 0xf2, 0], 5_000_000_000, 0),
    (&[0, 0, 0, 1, 0x2a, 5, 0xf2, 0], 5_000_000_000, 0),
    (&[0, 0, 0, 0, 0, 0, 0, 0, 7], 0, 1),
    (&[], 0, 1),
];

// The table of one flow.
fn table_of_one(rt: &impl Abort, alloc: Global, plan: &Plan, octets: &[u8]) -> Result<Table, Fail> {
    assert!(rt; octets.len() < 1 << 16);
    let mut partial = Partial::new(alloc, plan)?;
    partial.add(&flow(alloc, 1, octets)?)?;
    Ok(partial.finish()?)
}

// That octets count so much in it, or are absent.
fn assert_counted(
    rt: &impl Abort,
    alloc: Global,
    plan: &Plan,
    octets: &[u8],
    sum: u64,
    absent: u64,
) -> Result<(), Fail> {
    let table = table_of_one(rt, alloc, plan, octets)?;
    let row = table.rows.first().map(parts_of);
    let missing = table.missing.counters.first().copied();
    let want = Some((Some(Cell::Number(1)), Some(sum), 1));
    assert_eq!(rt; (row, missing), (want, Some(absent)));
    Ok(())
}

#[test]
fn a_counter_of_a_file_has_up_to_eight_octets(rt: HostRuntime) -> Result<(), Fail> {
    let alloc = rt.alloc();
    let plan = plan_of_connections(alloc)?;
    for (octets, sum, absent) in COUNTED {
        assert_counted(&rt, alloc, &plan, octets, sum, absent)?;
    }
    Ok(())
}

// What a caller says of an element, and no file: a delta counter of a kind.
fn with_delta(alloc: Global, kind: ElementKind) -> Result<Elements, ElementsFault> {
    let mut elements = Elements::built_in(alloc);
    if name_of(CONNECTIONS).is_some() {
        return Ok(elements);
    }
    elements.add(Entry {
        element: CONNECTIONS,
        name: String::from_str(alloc, "connections")?,
        kind,
        is_delta: true,
    })?;
    Ok(elements)
}

// The fault of a plan with a counter of this kind.
fn fault_by_kind(alloc: Global, kind: ElementKind) -> Result<&'static str, ElementsFault> {
    let elements = with_delta(alloc, kind)?;
    let protocol = ElementId::iana(4);
    Ok(fault_of(alloc, &elements, protocol, None, CONNECTIONS))
}

#[test]
fn counters_are_unsigned_numbers_of_64_bits(rt: HostRuntime) -> Result<(), Fail> {
    let alloc = rt.alloc();
    let eight = ElementKind::Plain(Kind::Unsigned(Width::Eight));
    let four = ElementKind::Plain(Kind::Unsigned(Width::Four));
    assert_eq!(rt; fault_by_kind(alloc, eight)?, "none");
    let others = [
        fault_by_kind(alloc, four)?,
        fault_by_kind(alloc, ElementKind::Signed(Width::Eight))?,
        fault_by_kind(alloc, ElementKind::Plain(Kind::Octets))?,
    ];
    assert_eq!(rt; others, ["CounterKind"; 3]);
    Ok(())
}
