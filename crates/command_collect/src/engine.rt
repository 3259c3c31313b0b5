//! What collects: sessions side by side over links, or lots of sessions one after another.

ghost use Rattle.std.specs.Prelude.{◌≡◌, IfErr, IfOk};
ghost use Rattle.flow_table.specs.Fitting.{FitsPlan};
ghost use Rattle.flow_collect.specs.Failures.{TellsLarge};
ghost use Rattle.command_collect.specs.Engines.{due_fault, CollectsInContext, HasEngineFaults};
ghost use Rattle.command_collect.specs.declared.engine.Engine.TheVariants.{Links};

use flow_collect::{
    CollectFailure, CollectFault, Collected, FilteredReport, InContext, OpenGate, Pool, Serial,
    collect_direct, collect_flat, direct_refusal, refusal,
};
use flow_table::{FlatTable, Plan};
use ipfix_session::Source;
use std::alloc::Global;
use std::sync::Wait;
use std::thread::Threads;

/// What collects.
#[derive(Clone, Copy, Debug, PartialEq, Eq)]
pub enum Engine {
    /// A thread for each session, which sends over a link of its own to one of the workers of a pool.
    Links(Pool),
    /// That many lots of sessions, which one thread reads one after another: there are no links, and any number of
    /// sessions.
    Lots(usize),
}

impl Engine {
    /// The first fault that it has with so many sessions, if it has one. Collecting answers it before anything is
    /// read.
    pub fn refusal(self, sessions: usize) -> Option<CollectFault>
        ensures { result ≡ due_fault self sessions }
    {
        match self {
            Engine::Links(pool) => refusal(pool, sessions),
            Engine::Lots(lots) => direct_refusal(lots, sessions),
        }
    }

    /// Collects by it, with each report in full.
    pub fn collect<S: Source + Send + Drop, R: Threads + Wait + Sync>(
        self,
        rt: &R,
        alloc: Global,
        sources: Vec<InContext<S>>,
        plan: &Plan,
    ) -> Result<Serial<S, FilteredReport, FlatTable>, CollectFailure>
        ensures ok { IfOk result (CollectsInContext S.seen self sources.entry.items plan.now) }
        ensures fits { IfOk result (λ s. FitsPlan plan.now s.table) }
        ensures faults { HasEngineFaults S.seen self sources.entry plan.now result }
        ensures large { IfErr result (TellsLarge S.seen plan.now sources.entry.items) }
    {
        match self {
            Engine::Links(pool) => collect_over_links(rt, alloc, sources, plan, pool),
            Engine::Lots(lots) => collect_direct(rt, alloc, sources, plan, lots),
        }
    }
}

// What was collected over links, without them.
fn collect_over_links<S: Source + Send + Drop, R: Threads + Wait + Sync>(
    rt: &R,
    alloc: Global,
    sources: Vec<InContext<S>>,
    plan: &Plan,
    pool: Pool,
) -> Result<Serial<S, FilteredReport, FlatTable>, CollectFailure>
    ensures ok { IfOk result (CollectsInContext S.seen (Links pool) sources.entry.items plan.now) }
    ensures fits { IfOk result (λ s. FitsPlan plan.now s.table) }
    ensures faults { HasEngineFaults S.seen (Links pool) sources.entry plan.now result }
    ensures large { IfErr result (TellsLarge S.seen plan.now sources.entry.items) }
{
    match collect_flat(rt, alloc, sources, plan, pool, &OpenGate) {
        Ok(collected) => Ok(without_links(collected)),
        Err(failure) => Err(failure),
    }
}

fn without_links<S: Drop>(
    collected: Collected<S, FilteredReport, FlatTable>,
) -> Serial<S, FilteredReport, FlatTable>
    ensures sessions { result.sessions ≡ collected.sessions }
    ensures sources { result.sources ≡ collected.sources }
    ensures table { result.table ≡ collected.table }
{
    let Collected {
        sessions,
        sources,
        table,
        ..
    } = collected;
    Serial {
        sessions,
        sources,
        table,
    }
}
