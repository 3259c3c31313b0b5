//! Sessions whose templates may count so much. Each number was added up by hand: a domain counts 16, a template 8 and
//! its fields.

use super::texts::*;
use flow_collect::{
    FilteredReport, InContext, OpenGate, Pool, SessionContext, collect_direct, collect_flat,
    no_context,
};
use flow_table::{FlatTable, Plan};
use ipfix_session::ScriptSource;
use std::alloc::{AllocError, Global};
use std::sync::Wait;
use std::test::*;
use std::thread::Threads;
use worked_examples::flows::*;

// A message of 28 octets of domain 1: template 257 with element 2 in 4 octets. The template counts 9.
const NARROW_TEMPLATE: &[u8] = &[
    0x00, 0x0a, 0x00, 0x1c, 0x65, 0x53, 0xf1, 0x00, 0x00, 0x00, 0x00, 0x01, 0x00, 0x00, 0x00, 0x01,
    0x00, 0x02, 0x00, 0x0c, 0x01, 0x01, 0x00, 0x01, 0x00, 0x02, 0x00, 0x04,
];

// Three sessions of one flow, template 257 and the next flow: its templates count 28 after the first message, and 37
// after the others.
fn three_sessions(alloc: Global) -> Result<Vec<InContext<'static, ScriptSource>>, AllocError> {
    let mut sources = Vec::new(alloc);
    for templates in [Some(37), Some(36), None] {
        let mut one = sources_of(alloc, &[&[ONE_FLOW, NARROW_TEMPLATE, NEXT_FLOW]])?;
        if let Some(source) = one.pop() {
            sources.push(InContext {
                source,
                context: SessionContext {
                    templates,
                    ..no_context()
                },
                filter: None,
            })?;
        }
    }
    Ok(sources)
}

// The rows, and the messages, the records and the number of the fault of each session.
fn told(
    alloc: Global,
    table: FlatTable,
    sessions: &[FilteredReport],
) -> Result<String, AllocError> {
    let mut text = lines_of(alloc, &table.into_table()?)?;
    for session in sessions {
        let report = &session.full.report;
        let fault = report.fault.map_or(0, |fault| fault.number());
        let line = format!(in alloc; "{},{},{fault};", report.messages, report.delivered)?;
        text.push_str(&line)?;
    }
    Ok(text)
}

fn over_links<R: Threads + Wait + Sync>(
    rt: &R,
    alloc: Global,
    plan: &Plan,
) -> Result<String, Fail> {
    let pool = Pool {
        workers: 2,
        capacity: 4,
    };
    let run = collect_flat(rt, alloc, three_sessions(alloc)?, plan, pool, &OpenGate)?;
    Ok(told(alloc, run.table, &run.sessions)?)
}

fn in_lots<R: Threads + Sync>(rt: &R, alloc: Global, plan: &Plan) -> Result<String, Fail> {
    let run = collect_direct(rt, alloc, three_sessions(alloc)?, plan, 2)?;
    Ok(told(alloc, run.table, &run.sessions)?)
}

// The session that reaches its limit goes on, and the one that would be one above it ends before its second message,
// with fault 21. Each has a limit of its own.
#[test]
fn each_session_has_its_limit(rt: HostRuntime) -> Result<(), Fail> {
    let plan = by_source(rt.alloc())?;
    let want = "0:192.0.2.1=7500,5;3,2,0;1,1,21;3,2,0;";
    assert_eq!(rt; over_links(&rt, rt.alloc(), &plan)?.as_str(), want);
    assert_eq!(rt; in_lots(&rt, rt.alloc(), &plan)?.as_str(), want);
    Ok(())
}
