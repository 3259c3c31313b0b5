//! Sessions are left out by the first number that is too large.

ghost use Rattle.std.specs.Prelude.{All, IfOk};
ghost use Rattle.flow_table.specs.Fitting.{FitsPlan};

use flow_table::{FlatTable, Key, Method, Partial, Plan, PlanFault};
use ipfix_message::{DataRecord, Fields};
use ipfix_wire::ElementId;
use largest_sessions::left_out;
use std::alloc::{AllocError, Global};
use std::test::*;

const HALF: u64 = 1 << 63;

// A flow in a minute, from 192.0.2.HOST, with so many octets and packets.
#[derive(Clone, Copy)]
struct Flow {
    minute: u64,
    host: u8,
    octets: u64,
    packets: u64,
}

const fn make_flow(minute: u64, host: u8, octets: u64, packets: u64) -> Flow {
    Flow {
        minute,
        host,
        octets,
        packets,
    }
}

fn record_of(alloc: Global, flow: &Flow) -> Result<DataRecord, AllocError> {
    let time = flow.minute.wrapping_mul(60_000);
    let mut fields = Fields::new(alloc);
    fields.push(ElementId::iana(152), &time.to_be_bytes())?;
    fields.push(ElementId::iana(153), &time.to_be_bytes())?;
    fields.push(ElementId::iana(8), &[192, 0, 2, flow.host])?;
    fields.push(ElementId::iana(1), &flow.octets.to_be_bytes())?;
    fields.push(ElementId::iana(2), &flow.packets.to_be_bytes())?;
    Ok(DataRecord {
        domain: 1,
        export_time: 1_700_000_000,
        template: 256,
        scope: 0,
        fields,
    })
}

// Minutes, by source address, of octets and packets.
fn by_source(alloc: Global) -> Result<Plan, PlanFault> {
    let source = Key {
        element: ElementId::iana(8),
        prefix: None,
    };
    let counters = [ElementId::iana(1), ElementId::iana(2)];
    Plan::new(alloc, 60_000, Method::Start, &[source], &counters, 4096)
}

fn table_of(alloc: Global, plan: &Plan, flows: &[Flow]) -> Result<FlatTable, Fail>
    ensures { IfOk result (FitsPlan plan.now) }
{
    let mut partial = Partial::new(alloc, plan)?;
    for flow in flows {
        partial.add(&record_of(alloc, flow)?)?;
    }
    Ok(partial.finish_flat()?)
}

fn tables_of(alloc: Global, plan: &Plan, sessions: &[&[Flow]]) -> Result<Vec<FlatTable>, Fail>
    ensures { IfOk result (λ tables. All (FitsPlan plan.now) tables.items) }
{
    let mut tables = Vec::new(alloc);
    for flows in sessions {
        tables.push(table_of(alloc, plan, flows)?)?;
    }
    Ok(tables)
}

// The indices of the sessions of these flows that are left out.
fn out_of(alloc: Global, sessions: &[&[Flow]]) -> Result<Vec<usize>, Fail> {
    let plan = by_source(alloc)?;
    let tables = tables_of(alloc, &plan, sessions)?;
    Ok(left_out(alloc, &plan, tables)?)
}

#[test]
fn nothing_goes_up_to_the_limit(rt: HostRuntime) -> Result<(), Fail> {
    let out = out_of(
        rt.alloc(),
        &[
            &[
                make_flow(0, 1, u64::MAX - 5, 1),
                make_flow(0, 2, 7, u64::MAX),
            ],
            &[make_flow(0, 1, 5, 1), make_flow(1, 2, u64::MAX, 1)],
            &[],
        ],
    )?;
    assert!(rt; out.is_empty());
    Ok(())
}

#[test]
fn the_session_with_most_goes(rt: HostRuntime) -> Result<(), Fail> {
    let out = out_of(
        rt.alloc(),
        &[
            &[make_flow(3, 1, HALF - 1, 1)],
            &[make_flow(3, 1, HALF, 1), make_flow(3, 1, 1, 1)],
            &[make_flow(3, 2, u64::MAX, 1)],
        ],
    )?;
    assert_eq!(rt; out.as_slice(), [1].as_slice());
    Ok(())
}

#[test]
fn of_several_with_as_much_the_first_goes(rt: HostRuntime) -> Result<(), Fail> {
    let out = out_of(
        rt.alloc(),
        &[
            &[make_flow(0, 9, 5, 1)],
            &[make_flow(0, 1, HALF, 1)],
            &[make_flow(0, 1, HALF, 1)],
        ],
    )?;
    assert_eq!(rt; out.as_slice(), [1].as_slice());
    Ok(())
}

#[test]
fn the_first_row_that_is_too_large_decides(rt: HostRuntime) -> Result<(), Fail> {
    let out = out_of(
        rt.alloc(),
        &[
            &[make_flow(0, 1, HALF, 1), make_flow(0, 2, 1, 1)],
            &[make_flow(0, 1, HALF + 5, 1), make_flow(1, 1, 9, 1)],
            &[
                make_flow(0, 2, u64::MAX, 1),
                make_flow(1, 1, u64::MAX - 8, 1),
            ],
        ],
    )?;
    assert_eq!(rt; out.as_slice(), [1, 2].as_slice());
    Ok(())
}

#[test]
fn the_first_counter_decides_in_a_row(rt: HostRuntime) -> Result<(), Fail> {
    let first = out_of(
        rt.alloc(),
        &[
            &[make_flow(0, 1, HALF + 1, 1)],
            &[make_flow(0, 1, HALF, u64::MAX)],
        ],
    )?;
    assert_eq!(rt; first.as_slice(), [0].as_slice());
    let second = out_of(
        rt.alloc(),
        &[&[make_flow(0, 1, 5, 1)], &[make_flow(0, 1, 3, u64::MAX)]],
    )?;
    assert_eq!(rt; second.as_slice(), [1].as_slice());
    Ok(())
}

#[test]
fn sessions_go_until_the_rest_fits(rt: HostRuntime) -> Result<(), Fail> {
    let out = out_of(
        rt.alloc(),
        &[
            &[make_flow(0, 1, HALF, 1)],
            &[make_flow(0, 1, u64::MAX, 1)],
            &[make_flow(0, 1, u64::MAX, 1)],
            &[make_flow(0, 1, HALF - 1, 1)],
        ],
    )?;
    assert_eq!(rt; out.as_slice(), [1, 2].as_slice());
    Ok(())
}
