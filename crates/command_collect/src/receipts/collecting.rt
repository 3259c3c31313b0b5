//! Collecting from sources that are hashed as they are read.

ghost use Rattle.std.specs.Prelude.{◌≡◌, None, IfErr, IfOk, length, map, vec_len};
ghost use Rattle.flow_table.specs.Fitting.{FitsPlan};
ghost use Rattle.command_collect.specs.Engines.{due_fault};
ghost use Rattle.command_collect.specs.Exporters.{noting};
ghost use Rattle.command_collect.specs.Jobs.{HasJobFaults, TellsJobLarge};
ghost use Rattle.command_collect.specs.Digests.{AreDigested, StartAt};
ghost use Rattle.command_collect.specs.HashedRuns.{GathersHashed, HasDigestsOf};

use crate::gathered::Gathered;
use crate::job::CollectJob;
use crate::receipts::hashing::{FinishedSources, finish_each, hash_each};
use crate::table::collect_job;
use flow_collect::{CollectFailure, CollectFault, Serial};
use input_digests::{HashedSource, Start};
use ipfix_session::Source;
use report_writing::Origin;
use std::alloc::{AllocError, Global};
use std::marker::Brand;
use std::sync::Wait;
use std::thread::Threads;

/// What was collected, and for each session the digest of the messages that count.
#[derive(Drop)]
pub struct HashedRun<S: Drop> {
    pub gathered: Gathered<S>,
    pub digests: Vec<[u8; 32]>,
}

/// Does as [`collect_job`], notes the rates of sampling, and hashes what the sources give.
pub fn collect_hashed<S: Source + Send + Drop, R: Threads + Wait + Sync>(
    rt: &R,
    alloc: Global,
    sources: Vec<S>,
    origins: &[Origin],
    job: &CollectJob,
) -> Result<HashedRun<S>, CollectFailure>
    ensures ok { IfOk result (GathersHashed S.seen (noting job.now) sources.items origins.now) }
    ensures digests { IfOk result (HasDigestsOf S.seen sources.items) }
    ensures fits { IfOk result (λ h. FitsPlan job.now.plan.now h.gathered.run.table) }
    ensures faults { HasJobFaults S.seen (noting job.now) sources origins.now result }
    ensures large { IfErr result
        (TellsJobLarge S.seen (noting job.now) sources.items origins.now) }
{
    if let Some(fault) = job.engine.refusal(sources.len()) {
        return Err(CollectFailure::only(fault));
    }
    let noting = job.noting_rates();
    collect_from::<S, R, Brand>(rt, alloc, sources, origins, &noting)
}

// The same of sources that hold what there is at the start, and are not too many.
fn collect_from<S: Source + Send + Drop, R: Threads + Wait + Sync, T: Start + Send>(
    rt: &R,
    alloc: Global,
    sources: Vec<S>,
    origins: &[Origin],
    job: &CollectJob,
) -> Result<HashedRun<S>, CollectFailure>
    requires start { StartAt S.seen T.texts 0 sources.items }
    requires fits { due_fault job.now.engine (vec_len sources) ≡ None }
    ensures ok { IfOk result (GathersHashed S.seen job.now sources.items origins.now) }
    ensures digests { IfOk result (HasDigestsOf S.seen sources.items) }
    ensures fits { IfOk result (λ h. FitsPlan job.now.plan.now h.gathered.run.table) }
    ensures faults { HasJobFaults S.seen job.now sources origins.now result }
    ensures large { IfErr result (TellsJobLarge S.seen job.now sources.items origins.now) }
{
    let Ok(hashed) = hash_each::<S, T>(alloc, sources) else {
        return Err(CollectFailure::only(CollectFault::OutOfMemory));
    };
    let gathered = match collect_job(rt, alloc, hashed, origins, job) {
        Ok(gathered) => gathered,
        Err(failure) => return Err(failure),
    };
    match finish_run(alloc, gathered) {
        Ok(run) => Ok(run),
        Err(AllocError) => Err(CollectFailure::only(CollectFault::OutOfMemory)),
    }
}

// The run with its sources as they were given, and the digests of the messages that count.
fn finish_run<S: Source + Drop, T: Start>(
    alloc: Global,
    gathered: Gathered<HashedSource<S, T>>,
) -> Result<HashedRun<S>, AllocError>
    requires { length gathered.run.sources.items ≡ length gathered.run.sessions.items }
    ensures sources { IfOk result (λ h. h.gathered.run.sources.items
        ≡ map (λ h. h.source) gathered.run.sources.items) }
    ensures sessions { IfOk result (λ h. h.gathered.run.sessions.items
        ≡ gathered.run.sessions.items) }
    ensures table { IfOk result (λ h. h.gathered.run.table ≡ gathered.run.table) }
    ensures filtered { IfOk result (λ h. h.gathered.filtered ≡ gathered.filtered) }
    ensures sampling { IfOk result (λ h. h.gathered.sampling ≡ gathered.sampling) }
    ensures times { IfOk result (λ h. h.gathered.times ≡ gathered.times) }
    ensures digests { IfOk result (λ h. AreDigested S.seen T.texts h.gathered.run.sources
        h.gathered.run.sessions.items h.digests) }
{
    let Gathered {
        run,
        filtered,
        sampling,
        times,
    } = gathered;
    let Serial {
        sessions,
        sources,
        table,
    } = run;
    let FinishedSources { sources, digests } = finish_each(alloc, sources, &sessions)?;
    Ok(HashedRun {
        gathered: Gathered {
            run: Serial {
                sessions,
                sources,
                table,
            },
            filtered,
            sampling,
            times,
        },
        digests,
    })
}
