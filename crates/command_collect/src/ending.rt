//! How a run ended, and what it tells.

ghost use Rattle.std.specs.Prelude.{◌≡◌, ◌⊎◌, ◌↔◌, true, All, IsTrue};
ghost use Rattle.report_writing.specs.Writing.{Tells};
ghost use Rattle.flow_collect.specs.InFull.{FullSerialAnswer};
ghost use Rattle.flow_collect.specs.Texts.{HasNoFault};
ghost use Rattle.report_sessions.specs.EndedSessions.{TellsEnded};
ghost use Rattle.command_collect.specs.Runs.{AddsUpIfWell, GatheredWell, JobWentWell, WentWell};
ghost use Rattle.command_collect.specs.Told.{gathered_counts, if_filtered as if_filtered_by, run_lines, table_told};

use crate::gathered::Gathered;
use crate::job::CollectJob;
use flow_estimates::SamplingReport;
use flow_table::FlatTable;
use ipfix_session::{FullReport, Source};
use report_sampling::{is_sampling_spotless, write_sampling};
use report_sessions::{is_spotless, write_missing, write_tally_with, write_told_reports};
use report_times::write_times;
use report_writing::{Origin, Status, WriteLines};
use std::io;

/// How a run ended whose table is written.
pub fn status_of<S: Source>(job: &CollectJob, gathered: &Gathered<S>) -> Status
    ensures ends { (result ≡ Status.Well) ⊎ (result ≡ Status.SessionFault) }
    ensures well { (result ≡ Status.Well) ↔ GatheredWell job.now gathered.now }
    ensures whole { (c : FullSerialAnswer S) → AddsUpIfWell S.seen job.now gathered.now c }
{
    let run = &gathered.run;
    end_of(job, &run.sessions, &gathered.sampling, &run.table)
}

// How sessions and their records ended.
fn end_of(
    job: &CollectJob,
    reports: &[FullReport],
    sampling: &[SamplingReport],
    table: &FlatTable,
) -> Status
    ensures ends { (result ≡ Status.Well) ⊎ (result ≡ Status.SessionFault) }
    ensures well { (result ≡ Status.Well)
        ↔ JobWentWell job.now reports.now sampling.now table.now }
{
    if went_well(job, reports, sampling, table) {
        Status::Well
    } else {
        Status::SessionFault
    }
}

#[tactic(auto, using(crate::proofs::WentWell::tested_strict, crate::proofs::WentWell::tested_plain))]
fn went_well(
    job: &CollectJob,
    reports: &[FullReport],
    sampling: &[SamplingReport],
    table: &FlatTable,
) -> bool
    ensures { IsTrue result ↔ JobWentWell job.now reports.now sampling.now table.now }
{
    if job.verbosity.strict {
        leaves_nothing_out(job.is_scaled(), reports, sampling, table)
    } else {
        have_no_fault(reports)
    }
}

/// Whether nothing shows that anything which was sent isn't in a table, nor that what it counts is a part of what was sent.
#[tactic(auto, using(crate::proofs::WentWell::both_tested))]
pub fn leaves_nothing_out(
    is_scaled: bool,
    reports: &[FullReport],
    sampling: &[SamplingReport],
    table: &FlatTable,
) -> bool
    ensures { IsTrue result ↔ WentWell true is_scaled reports.now sampling.now table.now }
{
    let spotless = is_spotless(reports, &table.tally(), &table.missing());
    let rated = is_sampling_spotless(is_scaled, sampling);
    spotless && rated
}

fn have_no_fault(reports: &[FullReport]) -> bool
    ensures { IsTrue result ↔ All (λ full. HasNoFault full.report) reports.now }
{
    for full in reports {
        if full.report.fault.is_some() {
            return false;
        }
    }
    true
}

/// Writes what there is to tell of sessions, each with the reason that its own source answers, of the rates at which their
/// records are sampled and of their times, and of their records.
pub fn tell<S: Source + Drop, E: WriteLines>(
    job: &CollectJob,
    origins: &[Origin],
    gathered: &Gathered<S>,
    err: &mut E,
) -> io::Result<()>
    ensures { let g = gathered.now in TellsEnded S.failure g.run.sources.items g.run.sessions.items
        (run_lines job.now origins.now (gathered_counts job.now origins.now g))
        (Tells E.lines err.old err.new result) }
{
    let run = &gathered.run;
    write_told_reports(
        job.verbosity,
        job.elements,
        origins,
        &run.sources,
        &run.sessions,
        err,
    )?;
    tell_counts(job, origins, gathered, err)
}

// What is told after the sessions: the rates of sampling, the elements of times, and then of the table.
fn tell_counts<S: Drop, E: WriteLines>(
    job: &CollectJob,
    origins: &[Origin],
    gathered: &Gathered<S>,
    err: &mut E,
) -> io::Result<()>
    ensures { Tells E.lines err.old err.new result
        (gathered_counts job.now origins.now gathered.now) }
{
    write_sampling(job.verbosity, origins, &gathered.sampling, err)?;
    write_times(job.times, origins, &gathered.times, err)?;
    tell_table(job, &gathered.run.table, gathered.filtered, err)
}

// How many records there were of each class, how many were left out, and what of them lacked something.
fn tell_table<E: WriteLines>(
    job: &CollectJob,
    table: &FlatTable,
    filtered: u64,
    err: &mut E,
) -> io::Result<()>
    ensures { Tells E.lines err.old err.new result
        (table_told job.now table.now filtered) }
{
    write_tally_with(&table.tally(), if_filtered(job, filtered), err)?;
    write_missing(job.verbosity, job.elements, job.plan, &table.missing(), err)
}

// How many records were left out, where the job has a filter.
fn if_filtered(job: &CollectJob, filtered: u64) -> Option<u64>
    ensures { result ≡ if_filtered_by job.now filtered }
{
    match job.filter {
        Some(_) => Some(filtered),
        None => None,
    }
}
