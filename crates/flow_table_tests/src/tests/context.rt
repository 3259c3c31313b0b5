//! Keys that name elements of context: what is known of a record beside the fields that its exporter sent.

use element_registry::{Elements, ElementsFault, add_file};
use flow_table::{
    Choices, Context, EXPORTER, EXPORTER_IPV4_ADDRESS, EXPORTER_IPV6_ADDRESS, Key, Method,
    OBSERVATION_DOMAIN_ID, Partial, Plan, PlanFault, Row, context_kind, context_name,
    context_named,
};
use ipfix_elements::{Cell, Kind, Width};
use ipfix_message::{DataRecord, Fields};
use ipfix_wire::ElementId;
use std::alloc::{AllocError, Global};
use std::process::Abort;
use std::test::Fail;

/// What a file says of these elements is not heeded: each has a kind of its own.
const FILE: &str = "ElementID,Name,Abstract Data Type
130,exporterIPv4Address,string
149,observationDomainId,string
";

/// 192.0.2.1, mapped into IPv6.
const MAPPED: [u8; 16] = [0, 0, 0, 0, 0, 0, 0, 0, 0, 0, 0xff, 0xff, 192, 0, 2, 1];

fn known(alloc: Global) -> Result<Elements, ElementsFault> {
    match add_file(alloc, Elements::built_in(alloc), FILE.as_bytes()) {
        Ok(added) => Ok(added.elements),
        Err(error) => Err(error.fault),
    }
}

fn key(element: ElementId) -> Key {
    Key {
        element,
        prefix: None,
    }
}

fn plan_of(alloc: Global, elements: &Elements, keys: &[Key]) -> Result<Plan, PlanFault> {
    Plan::with_elements(
        alloc,
        elements,
        60_000,
        Method::Start,
        keys,
        &[ElementId::iana(1)],
        4096,
        Choices::BASIC,
    )
}

fn fault_of(alloc: Global, keys: &[Key]) -> &'static str {
    match plan_of(alloc, &Elements::built_in(alloc), keys) {
        Ok(_) => "none",
        Err(fault) => fault.name(),
    }
}

// The kind that a plan has of its only key.
fn kind_in_plan(
    alloc: Global,
    elements: &Elements,
    element: ElementId,
) -> Result<Option<Kind>, PlanFault> {
    let plan = plan_of(alloc, elements, &[key(element)])?;
    Ok(plan.kinds().first().copied())
}

// That an element has this number, name and kind, also in a plan.
fn assert_known(
    rt: &impl Abort,
    alloc: Global,
    files: &Elements,
    element: ElementId,
    (number, name, kind): (u16, &'static str, Kind),
) -> Result<(), PlanFault> {
    let kinds = [context_kind(element), kind_in_plan(alloc, files, element)?];
    let named = (element, context_name(element), context_named(name));
    assert_eq!(rt; named, (ElementId::iana(number), Some(name), Some(element)));
    assert_eq!(rt; kinds, [Some(kind), Some(kind)]);
    Ok(())
}

#[test]
fn each_has_a_name_and_a_kind_whatever_files_say(rt: HostRuntime) -> Result<(), Fail> {
    let alloc = rt.alloc();
    let files = known(alloc)?;
    let (address, address_6) = ("exporterIPv4Address", "exporterIPv6Address");
    let domain = (149, "observationDomainId", Kind::Unsigned(Width::Four));
    assert_known(
        &rt,
        alloc,
        &files,
        EXPORTER,
        (32768, "exporter", Kind::Ipv6),
    )?;
    assert_known(
        &rt,
        alloc,
        &files,
        EXPORTER_IPV4_ADDRESS,
        (130, address, Kind::Ipv4),
    )?;
    assert_known(
        &rt,
        alloc,
        &files,
        EXPORTER_IPV6_ADDRESS,
        (131, address_6, Kind::Ipv6),
    )?;
    assert_known(&rt, alloc, &files, OBSERVATION_DOMAIN_ID, domain)?;
    let others = (context_name(ElementId::iana(8)), context_named("Exporter"));
    assert_eq!(rt; others, (None, None));
    Ok(())
}

// The fault of a plan of records alone, by its key.
fn fault_without_context(alloc: Global, element: ElementId) -> &'static str {
    let counters = [ElementId::iana(1)];
    match Plan::new(
        alloc,
        60_000,
        Method::Start,
        &[key(element)],
        &counters,
        4096,
    ) {
        Ok(_) => "none",
        Err(fault) => fault.name(),
    }
}

#[test]
fn plans_of_records_alone_have_none_of_them(rt: HostRuntime) {
    let faults = [
        fault_without_context(rt.alloc(), EXPORTER),
        fault_without_context(rt.alloc(), EXPORTER_IPV4_ADDRESS),
        fault_without_context(rt.alloc(), EXPORTER_IPV6_ADDRESS),
        fault_without_context(rt.alloc(), OBSERVATION_DOMAIN_ID),
    ];
    assert_eq!(rt; faults, ["KeyKind"; 4]);
}

fn assert_fault(rt: &impl Abort, alloc: Global, keys: &[Key], want: &str) {
    assert_eq!(rt; fault_of(alloc, keys), want);
}

#[test]
fn an_exporter_is_a_key_once_and_whole(rt: HostRuntime) {
    let alloc = rt.alloc();
    let network = Key {
        element: EXPORTER,
        prefix: Some(64),
    };
    let (exporter, address) = (key(EXPORTER), key(EXPORTER_IPV4_ADDRESS));
    assert_fault(&rt, alloc, &[exporter], "none");
    assert_fault(&rt, alloc, &[network], "Prefix");
    // It is exported as exporterIPv6Address.
    assert_fault(
        &rt,
        alloc,
        &[exporter, key(EXPORTER_IPV6_ADDRESS)],
        "Repeated",
    );
    assert_fault(&rt, alloc, &[exporter, address], "none");
    assert_fault(&rt, alloc, &[exporter, exporter], "Repeated");
    // A number that no template can name, and that is no element of context.
    assert_fault(&rt, alloc, &[key(ElementId::iana(32769))], "KeyKind");
    let exported = [exporter.exported_element(), address.exported_element()];
    assert_eq!(rt; exported, [EXPORTER_IPV6_ADDRESS, EXPORTER_IPV4_ADDRESS]);
}

// Which of them a plan's keys name.
fn context_of(alloc: Global, elements: &Elements, keys: &[Key]) -> Result<Context, PlanFault> {
    Ok(plan_of(alloc, elements, keys)?.context())
}

#[test]
fn a_plan_says_which_of_them_its_keys_name(rt: HostRuntime) -> Result<(), Fail> {
    let none = Context {
        exporter: false,
        exporter_ipv4_address: false,
        exporter_ipv6_address: false,
        observation_domain_id: false,
    };
    let exporter = Context {
        exporter: true,
        ..none
    };
    let both = Context {
        exporter_ipv4_address: true,
        observation_domain_id: true,
        ..none
    };
    let address_6 = Context {
        exporter_ipv6_address: true,
        ..none
    };
    let (alloc, elements) = (rt.alloc(), Elements::built_in(rt.alloc()));
    let address = key(ElementId::iana(8));
    let named = [key(OBSERVATION_DOMAIN_ID), key(EXPORTER_IPV4_ADDRESS)];
    let found = [
        context_of(alloc, &elements, &[address])?,
        context_of(alloc, &elements, &[address, key(EXPORTER)])?,
        context_of(alloc, &elements, &named)?,
        context_of(alloc, &elements, &[key(EXPORTER_IPV6_ADDRESS)])?,
    ];
    assert_eq!(rt; found, [none, exporter, both, address_6]);
    Ok(())
}

fn push_flow(fields: &mut Fields, octets: u64) -> Result<(), AllocError> {
    fields.push(ElementId::iana(152), &1000u64.to_be_bytes())?;
    fields.push(ElementId::iana(153), &2000u64.to_be_bytes())?;
    fields.push(ElementId::iana(1), &octets.to_be_bytes())?;
    fields.push(EXPORTER_IPV4_ADDRESS, &[198, 51, 100, 7])
}

// A flow of the first minute that says 198.51.100.7 of its exporter.
fn flow(alloc: Global, octets: u64) -> Result<DataRecord, AllocError> {
    let mut fields = Fields::new(alloc);
    push_flow(&mut fields, octets)?;
    Ok(DataRecord {
        domain: 1,
        export_time: 1_700_000_000,
        template: 256,
        scope: 0,
        fields,
    })
}

// The same, and what is known of it: that its exporter is 192.0.2.1.
fn flow_in_context(alloc: Global, octets: u64) -> Result<DataRecord, AllocError> {
    let mut record = flow(alloc, octets)?;
    record.fields.push(EXPORTER, &MAPPED)?;
    record.fields.push(EXPORTER_IPV4_ADDRESS, &[192, 0, 2, 1])?;
    Ok(record)
}

fn parts_of(row: &Row) -> (Option<Cell>, Option<u64>, u64) {
    (
        row.key.first().copied(),
        row.sums.first().copied(),
        row.flows,
    )
}

// Adds two flows in context and one without.
fn add_flows(alloc: Global, partial: &mut Partial) -> Result<(), Fail> {
    partial.add(&flow_in_context(alloc, 1500)?)?;
    partial.add(&flow_in_context(alloc, 40)?)?;
    partial.add(&flow(alloc, 7)?)?;
    Ok(())
}

// The first row, and how many records are unkeyed, of these flows.
fn rows_by(
    alloc: Global,
    element: ElementId,
) -> Result<(Option<(Option<Cell>, Option<u64>, u64)>, u64), Fail> {
    let plan = plan_of(alloc, &Elements::built_in(alloc), &[key(element)])?;
    let mut partial = Partial::new(alloc, &plan)?;
    add_flows(alloc, &mut partial)?;
    let table = partial.finish()?;
    Ok((table.rows.first().map(parts_of), table.tally.unkeyed))
}

// What stands first of an element wins: a record's own field, and an exporter's address is none of these.
#[test]
fn rows_are_told_apart_by_exporter(rt: HostRuntime) -> Result<(), Fail> {
    let own = Cell::Ipv4([198, 51, 100, 7]);
    let known = (Some(Cell::Ipv6(MAPPED)), Some(1540), 2);
    let found = [
        rows_by(rt.alloc(), EXPORTER)?,
        rows_by(rt.alloc(), EXPORTER_IPV4_ADDRESS)?,
    ];
    assert_eq!(rt;
        found,
        [(Some(known), 1), (Some((Some(own), Some(1547), 3)), 0)]
    );
    Ok(())
}
