//! Sessions whose exporters select some packets of many.

use super::texts::*;
use element_registry::{ElementKind, Elements, ElementsFault, Entry};
use exporter_options::{Rate, Wanted};
use flow_collect::{
    CollectFailure, CollectFault, FilteredReport, InContext, OpenGate, Pool, Serial,
    SessionContext, collect_direct, collect_flat, no_context,
};
use flow_estimates::{Estimate, Estimates, RateCount};
use flow_table::{Choices, FlatTable, Key, Method, Plan, Table};
use ipfix_elements::{Kind, Width};
use ipfix_session::ScriptSource;
use ipfix_wire::ElementId;
use std::alloc::{AllocError, Global};
use std::test::*;
use worked_examples::flows::*;
use worked_examples::text_of;

/// An options record: domain 1 (149, its scope) has samplingInterval (34) 10.
const ONE_OF_TEN: &[u8] = &[
    // header: 46 octets, sequence 1, domain 1
    0x00, 0x0a, 0x00, 0x2e, 0x65, 0x53, 0xf1, 0x00, 0x00, 0x00, 0x00, 0x01, 0x00, 0x00, 0x00, 0x01,
    // options template set: template 257 with 149 as its scope, and 34, both in 4 octets
    0x00, 0x03, 0x00, 0x12, 0x01, 0x01, 0x00, 0x02, 0x00, 0x01, 0x00, 0x95, 0x00, 0x04, 0x00, 0x22,
    0x00, 0x04,
    // data set of template 257
    0x01, 0x01, 0x00, 0x0c, 0x00, 0x00, 0x00, 0x01, 0x00, 0x00, 0x00, 0x0a,
];

const OCTETS_ESTIMATED: ElementId = ElementId {
    pen: 32473,
    number: 1001,
};

const RATES: Wanted = Wanted {
    init_time: false,
    sampling: true,
};

const POOL: Pool = Pool {
    workers: 1,
    capacity: 4,
};

// What is known of the estimate of octets.
fn elements_of(alloc: Global) -> Result<Elements, ElementsFault> {
    let mut elements = Elements::built_in(alloc);
    elements.add(Entry {
        element: OCTETS_ESTIMATED,
        name: String::from_str(alloc, "octetDeltaCount_estimated")?,
        kind: ElementKind::Plain(Kind::Unsigned(Width::Eight)),
        is_delta: true,
    })?;
    Ok(elements)
}

// Intervals of a minute, by source address, with this counter.
fn plan_of(alloc: Global, counter: ElementId) -> Result<Plan, Fail> {
    Ok(Plan::with_elements(
        alloc,
        &elements_of(alloc)?,
        60_000,
        Method::Start,
        &[Key {
            element: ElementId::iana(8),
            prefix: None,
        }],
        &[counter],
        4096,
        Choices::BASIC,
    )?)
}

// One session of these messages, with this context.
fn session<'a>(
    alloc: Global,
    messages: &[&[u8]],
    context: SessionContext<'a>,
) -> Result<Vec<InContext<'a, ScriptSource>>, AllocError> {
    let mut sessions = Vec::new(alloc);
    sessions.push(InContext {
        source: ScriptSource::new(text_of(alloc, messages)?, 16, None, None),
        context,
        filter: None,
    })?;
    Ok(sessions)
}

fn estimates_of_octets(alloc: Global) -> Result<Estimates, AllocError> {
    let mut keys = Vec::new(alloc);
    keys.push(Estimate {
        counter: ElementId::iana(1),
        element: OCTETS_ESTIMATED,
    })?;
    Ok(Estimates { keys })
}

// Whether a table has one row, of this sum and so many flows.
fn has_row(table: &Table, sum: u64, flows: u64) -> bool {
    match table.rows.first() {
        Some(row) => table.rows.len() == 1 && row.sums.first() == Some(&sum) && row.flows == flows,
        None => false,
    }
}

fn is_count(count: Option<&RateCount>, rate: Option<Rate>, records: u64) -> bool {
    match count {
        Some(count) => count.domain == 1 && count.rate == rate && count.records == records,
        None => false,
    }
}

// 1,500 octets before the rate was told count once, and 1,500 after it ten times: 16,500 in all.
#[test]
fn counters_are_scaled(rt: HostRuntime) -> Result<(), Fail> {
    let alloc = rt.alloc();
    let estimates = estimates_of_octets(alloc)?;
    let context = SessionContext {
        options: RATES,
        estimates: Some(&estimates),
        ..no_context()
    };
    let plan = plan_of(alloc, OCTETS_ESTIMATED)?;
    let messages = [ONE_FLOW, ONE_OF_TEN, NEXT_FLOW];
    let run = collect_direct(&rt, alloc, session(alloc, &messages, context)?, &plan, 1)?;
    let sampling = &run.sessions.first().expect(&rt, "a session").sampling;
    let rate = Some(Rate {
        selected: 1,
        population: 10,
    });
    assert_eq!(rt; sampling.rates.len(), 2);
    assert!(rt; is_count(sampling.rates.get(0), rate, 1));
    assert!(rt; is_count(sampling.rates.get(1), None, 1));
    assert!(rt; sampling.is_sampled && sampling.is_unrated && !sampling.is_too_large);
    assert!(rt; has_row(&run.table.into_table()?, 16_500, 2));
    let linked = collect_flat(
        &rt,
        alloc,
        session(alloc, &messages, context)?,
        &plan,
        POOL,
        &OpenGate,
    )?;
    assert!(rt; has_row(&linked.table.into_table()?, 16_500, 2));
    Ok(())
}

// The fault of a run, if it has one.
fn fault_of(
    run: Result<Serial<ScriptSource, FilteredReport, FlatTable>, CollectFailure>,
) -> Option<CollectFault> {
    match run {
        Ok(_) => None,
        Err(failure) => Some(failure.fault),
    }
}

// A flow that has a rate, and one whose domain's rate comes later, are refused; one of a domain that tells none is not.
#[test]
fn sampled_records_are_refused(rt: HostRuntime) -> Result<(), Fail> {
    let alloc = rt.alloc();
    let context = SessionContext {
        options: RATES,
        refuses_sampled: true,
        ..no_context()
    };
    let plan = plan_of(alloc, ElementId::iana(1))?;
    let cases: [(&[&[u8]], Option<CollectFault>); 3] = [
        (
            &[ONE_FLOW, ONE_OF_TEN, NEXT_FLOW],
            Some(CollectFault::Sampled),
        ),
        (&[ONE_FLOW, ONE_OF_TEN], Some(CollectFault::Sampled)),
        (&[ONE_FLOW, NEXT_FLOW], None),
    ];
    for (messages, fault) in cases {
        let run = collect_direct(&rt, alloc, session(alloc, messages, context)?, &plan, 1);
        assert_eq!(rt; fault_of(run), fault);
    }
    Ok(())
}

// Without the word a counter is what the exporter sent, and nothing is noted.
#[test]
fn rates_are_ignored(rt: HostRuntime) -> Result<(), Fail> {
    let alloc = rt.alloc();
    let plan = plan_of(alloc, ElementId::iana(1))?;
    let messages = [ONE_FLOW, ONE_OF_TEN, NEXT_FLOW];
    let run = collect_direct(
        &rt,
        alloc,
        session(alloc, &messages, no_context())?,
        &plan,
        1,
    )?;
    let sampling = &run.sessions.first().expect(&rt, "a session").sampling;
    assert_eq!(rt; sampling.rates.len(), 0);
    assert!(rt; !sampling.is_sampled);
    assert!(rt; has_row(&run.table.into_table()?, 3_000, 2));
    Ok(())
}
