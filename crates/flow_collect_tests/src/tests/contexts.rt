//! What sessions know beside their records.

use super::texts::*;
use element_registry::Elements;
use flow_collect::{
    CollectFailure, CollectFault, ContextFields, Exporter, InContext, OpenGate, Pool,
    SessionContext, collect_direct, collect_flat, no_context,
};
use flow_table::{
    Choices, Context, EXPORTER, EXPORTER_IPV4_ADDRESS, EXPORTER_IPV6_ADDRESS, Key, Method,
    OBSERVATION_DOMAIN_ID, Plan, PlanFault, Table,
};
use ipfix_elements::Cell;
use ipfix_message::{DataRecord, Fields};
use ipfix_session::ScriptSource;
use ipfix_wire::ElementId;
use std::alloc::{AllocError, Global};
use std::net::IpAddr;
use std::sync::Wait;
use std::test::*;
use std::thread::Threads;
use worked_examples::flows::*;
use worked_examples::text_of;

/// 192.0.2.1, and the same mapped into IPv6 (RFC 4291, section 2.5.5.2).
const IPV4: [u8; 4] = [192, 0, 2, 1];

const MAPPED: [u8; 16] = [0, 0, 0, 0, 0, 0, 0, 0, 0, 0, 0xff, 0xff, 192, 0, 2, 1];

/// 2001:db8::1.
const IPV6: [u8; 16] = [0x20, 1, 0x0d, 0xb8, 0, 0, 0, 0, 0, 0, 0, 0, 0, 0, 0, 1];

const ALL: Context = Context {
    exporter: true,
    exporter_ipv4_address: true,
    exporter_ipv6_address: true,
    observation_domain_id: true,
};

fn key(element: ElementId) -> Key {
    Key {
        element,
        prefix: None,
    }
}

fn plan_of(alloc: Global, element: ElementId) -> Result<Plan, PlanFault> {
    Plan::with_elements(
        alloc,
        &Elements::built_in(alloc),
        60_000,
        Method::Start,
        &[key(element)],
        &[ElementId::iana(1)],
        4096,
        Choices::BASIC,
    )
}

// A record of domain 7 with one field, exporterIPv4Address 198.51.100.9.
fn with_field_130(alloc: Global) -> Result<DataRecord, AllocError> {
    let mut fields = Fields::new(alloc);
    fields.push(EXPORTER_IPV4_ADDRESS, &[198, 51, 100, 9])?;
    Ok(DataRecord {
        domain: 7,
        export_time: 0,
        template: 256,
        scope: 0,
        fields,
    })
}

// Whether the first field of an element has these octets.
fn has(fields: &Fields, element: ElementId, octets: &[u8]) -> bool {
    match fields.find(element) {
        Some(found) => found == octets,
        None => false,
    }
}

#[test]
fn mapped_addresses_are_of_ipv4(rt: HostRuntime) -> Result<(), Fail> {
    assert_eq!(rt; Exporter::at(IpAddr::from(IPV4)), Exporter::Ipv4(IPV4));
    assert_eq!(rt; Exporter::at(IpAddr::from(MAPPED)), Exporter::Ipv4(IPV4));
    assert_eq!(rt; Exporter::at(IpAddr::from(IPV6)), Exporter::Ipv6(IPV6));
    Ok(())
}

// A field of the record is no exporter's address, and stays the first of its element.
#[test]
fn fields_follow_the_records_own(rt: HostRuntime) -> Result<(), Fail> {
    let mut item = with_field_130(rt.alloc())?;
    let context = SessionContext {
        exporter: Some(Exporter::Ipv4(IPV4)),
        wanted: ALL,
        ..no_context()
    };
    ContextFields::new(rt.alloc(), context)?.append(&mut item)?;
    assert_eq!(rt; item.fields.len(), 4);
    assert!(rt; has(&item.fields, EXPORTER, &MAPPED));
    assert!(rt; has(&item.fields, EXPORTER_IPV4_ADDRESS, &[198, 51, 100, 9]));
    assert!(rt; has(&item.fields, OBSERVATION_DOMAIN_ID, &[0, 0, 0, 7]));
    Ok(())
}

// Each record gets the domain of its own message, not that of the message before.
#[test]
fn each_domain_has_its_own_fields(rt: HostRuntime) -> Result<(), Fail> {
    let context = SessionContext {
        exporter: None,
        wanted: ALL,
        ..no_context()
    };
    let mut fields = ContextFields::new(rt.alloc(), context)?;
    for domain in [7, 0, 7, 8] {
        let mut item = with_field_130(rt.alloc())?;
        item.domain = domain;
        fields.append(&mut item)?;
        assert_eq!(rt; item.fields.len(), 2);
        assert!(rt; has(&item.fields, OBSERVATION_DOMAIN_ID, &domain.to_be_bytes()));
    }
    Ok(())
}

#[test]
fn only_what_is_wanted_is_appended(rt: HostRuntime) -> Result<(), Fail> {
    let mut item = with_field_130(rt.alloc())?;
    ContextFields::new(rt.alloc(), no_context())?.append(&mut item)?;
    assert_eq!(rt; item.fields.len(), 1);
    let of_ipv6 = SessionContext {
        exporter: Some(Exporter::Ipv6(IPV6)),
        wanted: ALL,
        ..no_context()
    };
    ContextFields::new(rt.alloc(), of_ipv6)?.append(&mut item)?;
    assert_eq!(rt; item.fields.len(), 4);
    assert!(rt; has(&item.fields, EXPORTER, &IPV6));
    assert!(rt; has(&item.fields, EXPORTER_IPV6_ADDRESS, &IPV6));
    Ok(())
}

// The same flow three times: of 192.0.2.1, of 2001:db8::1, and of an exporter that isn't known.
fn three_sessions(
    alloc: Global,
    wanted: Context,
) -> Result<Vec<InContext<'static, ScriptSource>>, AllocError> {
    let mut sources = Vec::new(alloc);
    for exporter in [Some(Exporter::Ipv4(IPV4)), Some(Exporter::Ipv6(IPV6)), None] {
        let mut one = sources_of(alloc, &[&[ONE_FLOW]])?;
        if let Some(source) = one.pop() {
            sources.push(InContext {
                source,
                context: SessionContext {
                    exporter,
                    wanted,
                    ..no_context()
                },
                filter: None,
            })?;
        }
    }
    Ok(sources)
}

// Whether there are just these rows, by their keys, each of one flow, and how many records are unkeyed.
fn has_rows(table: &Table, keys: &[Cell], unkeyed: u64) -> bool {
    let mut left = keys;
    for row in &table.rows {
        let [first, others @ ..] = left else {
            return false;
        };
        if row.key.first() != Some(first) || row.flows != 1 {
            return false;
        }
        left = others;
    }
    left.is_empty() && table.tally.unkeyed == unkeyed
}

fn over_links<R: Threads + Wait + Sync>(rt: &R, alloc: Global, plan: &Plan) -> Result<Table, Fail> {
    let pool = Pool {
        workers: 2,
        capacity: 4,
    };
    let sources = three_sessions(alloc, plan.context())?;
    let run = collect_flat(rt, alloc, sources, plan, pool, &OpenGate)?;
    Ok(run.table.into_table()?)
}

fn in_lots<R: Threads + Sync>(rt: &R, alloc: Global, plan: &Plan) -> Result<Table, Fail> {
    let sources = three_sessions(alloc, plan.context())?;
    let run = collect_direct(rt, alloc, sources, plan, 2)?;
    Ok(run.table.into_table()?)
}

#[test]
fn exporters_are_keys(rt: HostRuntime) -> Result<(), Fail> {
    let rows: [(ElementId, &[Cell], u64); 3] = [
        (EXPORTER, &[Cell::Ipv6(MAPPED), Cell::Ipv6(IPV6)], 1),
        (EXPORTER_IPV4_ADDRESS, &[Cell::Ipv4(IPV4)], 2),
        (EXPORTER_IPV6_ADDRESS, &[Cell::Ipv6(IPV6)], 2),
    ];
    for (element, keys, unkeyed) in rows {
        let plan = plan_of(rt.alloc(), element)?;
        assert!(rt; has_rows(&over_links(&rt, rt.alloc(), &plan)?, keys, unkeyed));
        assert!(rt; has_rows(&in_lots(&rt, rt.alloc(), &plan)?, keys, unkeyed));
    }
    Ok(())
}

// Three sessions of flows of one row, of which the second alone has a counter above 2^63.
fn one_too_large(
    alloc: Global,
    counters: Option<&[ElementId]>,
) -> Result<Vec<InContext<'_, ScriptSource>>, AllocError> {
    let texts: [&[&[u8]]; 3] = [&[ONE_OCTET_FLOW], &[LARGEST_FLOW], &[ONE_OCTET_FLOW]];
    let mut sources = Vec::new(alloc);
    for messages in texts {
        let text = text_of(alloc, messages)?;
        sources.push(InContext {
            source: ScriptSource::new(text, 16, None, None),
            context: SessionContext {
                great_counters: counters,
                ..no_context()
            },
            filter: None,
        })?;
    }
    Ok(sources)
}

// What a failure tells: its fault, the interval and the key of its row, and its session.
fn told_of(failure: &CollectFailure) -> (CollectFault, Option<(u64, Option<Cell>)>, Option<usize>) {
    let row = match &failure.row {
        Some(row) => Some((row.interval, row.key.first().copied())),
        None => None,
    };
    (failure.fault, row, failure.session)
}

// The sum of a row of three sessions is too large, added up by one worker, by two whose tables are merged, and in lots.
#[test]
fn a_sum_too_large_has_its_row(rt: HostRuntime) -> Result<(), Fail> {
    let alloc = rt.alloc();
    let plan = by_source(alloc)?;
    let row = Some((0, Some(Cell::Ipv4([192, 0, 2, 1]))));
    let cases = [
        (Some(plan.counters()), Some(1), 1),
        (Some(plan.counters()), Some(1), 2),
        (None, None, 2),
    ];
    for (counters, session, workers) in cases {
        let want = (CollectFault::SumTooLarge, row, session);
        let pool = Pool {
            workers,
            capacity: 4,
        };
        let sources = one_too_large(alloc, counters)?;
        let linked = collect_flat(&rt, alloc, sources, &plan, pool, &OpenGate).err();
        assert_eq!(rt; told_of(&linked.expect(&rt, "a failure")), want);
        let sources = one_too_large(alloc, counters)?;
        let direct = collect_direct(&rt, alloc, sources, &plan, workers).err();
        assert_eq!(rt; told_of(&direct.expect(&rt, "a failure")), want);
    }
    Ok(())
}
