//! The caller of `flow_collect` in its `CALLING.md`.

ghost use Rattle.std.specs.Prelude.{ℕ, List, All, IfOk, IfSome, IsTrue, flat_map};
ghost use Rattle.ipfix_session.specs.Given.{records_of};
ghost use Rattle.flow_collect.specs.Headline.{IsAddedUp};
ghost use Rattle.flow_collect.specs.Texts.{AreTexts, HasNoFault};

use super::texts::*;
use flow_collect::laws::{links_aside, whole_texts_add_up};
use flow_collect::{CollectFault, Collected, OpenGate, Pool, collect};
use flow_table::{Plan, Table};
use ipfix_session::{SessionReport, Source};
use std::alloc::Global;
use std::sync::Wait;
use std::test::*;
use std::thread::Threads;
use worked_examples::faults::VERSION_9;
use worked_examples::flows::*;

// The aggregate of all records that the sources hold, or `None` if a session had a fault.
fn whole_aggregate<S: Source + Send + Drop, R: Threads + Wait + Sync>(
    rt: &R,
    alloc: Global,
    sources: Vec<S>,
    plan: &Plan,
) -> Result<Option<Table>, CollectFault>
    ensures { (texts : List (List ℕ)) → AreTexts S.seen sources.items texts
        → IfOk result (λ r. IfSome r (IsAddedUp plan.now (flat_map records_of texts))) }
{
    let pool = Pool {
        workers: 2,
        capacity: 1024,
    };
    let run = collect(rt, alloc, sources, plan, pool, &OpenGate)?;
    links_aside::<S>();
    whole_texts_add_up::<S>();
    let Collected {
        sessions,
        table,
        ..
    } = run;
    if have_no_fault(&sessions) {
        return Ok(Some(table));
    }
    Ok(None)
}

fn have_no_fault(reports: &[SessionReport]) -> bool
    ensures { IsTrue result → All HasNoFault reports.now }
{
    reports.iter().all(|report| report.fault.is_none())
}

#[test]
fn gives_the_aggregate_of_whole_texts_alone(rt: HostRuntime) -> Result<(), Fail> {
    let alloc: Global = rt.alloc();
    let plan = by_source(alloc)?;
    let whole = sources_of(alloc, &[&[FIVE_FLOWS], &[FIVE_FLOWS]])?;
    let table = whole_aggregate(&rt, alloc, whole, &plan)?.ok_or("a table")?;
    assert_eq!(rt; lines_of(alloc, &table)?.as_str(), "0:192.0.2.1=30,10;");
    let cut = sources_of(alloc, &[&[FIVE_FLOWS], &[VERSION_9]])?;
    assert!(rt; whole_aggregate(&rt, alloc, cut, &plan)?.is_none());
    Ok(())
}
