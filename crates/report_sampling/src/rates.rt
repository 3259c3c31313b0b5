//! The lines of how many records have which rate.

ghost use Rattle.std.specs.Prelude.{◌≡◌, false};
ghost use Rattle.report_sampling.specs.SamplingLines.{rate_line, rate_lines, rate_text, sampled_text, sampling_at, sampling_lines, sampling_told, unrated_text};
ghost use Rattle.report_writing.specs.Writing.{Tells};

use exporter_options::Rate;
use flow_estimates::{RateCount, SamplingReport};
use report_writing::{Origin, Verbosity, WriteLines, write_session_start};
use std::collections::VecDeque;
use std::io;

/// Writes at which rates the packets of sessions were sampled, if `verbosity` is verbose or strict: session by session,
/// which are counted from 1, a line for each rate of an observation domain with how many flows have it, the rate that
/// was counted last first. Flows that have no rate, though their domain has one at the session's end, are unrated.
/// After a session's number stands the origin at its place in `origins`; none if it is missing there.
pub fn write_sampling<W: WriteLines>(
    verbosity: Verbosity,
    origins: &[Origin],
    reports: &[SamplingReport],
    out: &mut W,
) -> io::Result<()>
    ensures told { Tells W.lines out.old out.new result
        (sampling_told verbosity origins.now reports.now) }
    // Without these options nothing is written.
    ensures plain { verbosity.verbose ≡ false → verbosity.strict ≡ false → out.new ≡ out.old }
{
    if verbosity.verbose || verbosity.strict {
        write_sessions(origins, reports, out)
    } else {
        Ok(())
    }
}

fn write_sessions<W: WriteLines>(
    origins: &[Origin],
    reports: &[SamplingReport],
    out: &mut W,
) -> io::Result<()>
    ensures { Tells W.lines out.old out.new result
        (sampling_lines origins.now reports.now) }
{
    for (index, report) in reports.iter().enumerate() {
        write_numbered(index + 1, origins, report, out)?;
    }
    Ok(())
}

// The lines of the session of this number, counted from 1.
fn write_numbered<W: WriteLines>(
    session: usize,
    origins: &[Origin],
    report: &SamplingReport,
    out: &mut W,
) -> io::Result<()>
    ensures { Tells W.lines out.old out.new result
        (sampling_at origins.now session report.now) }
{
    match origins.get(session.saturating_sub(1)) {
        Some(origin) => write_rates(session, origin, &report.rates, out),
        None => write_rates(session, &Origin::Unknown, &report.rates, out),
    }
}

fn write_rates<W: WriteLines>(
    session: usize,
    origin: &Origin,
    counts: &VecDeque<RateCount>,
    out: &mut W,
) -> io::Result<()>
    ensures { Tells W.lines out.old out.new result
        (rate_lines session origin.now counts.now.items) }
{
    for index in 0..counts.len() {
        write_rate(session, origin, &counts[index], out)?;
    }
    Ok(())
}

fn write_rate<W: WriteLines>(
    session: usize,
    origin: &Origin,
    count: &RateCount,
    out: &mut W,
) -> io::Result<()>
    ensures { Tells W.lines out.old out.new result
        (rate_line session origin.now count.now) }
{
    write_session_start(session, origin, out)?;
    write_count(count, out)
}

fn write_count<W: WriteLines>(count: &RateCount, out: &mut W) -> io::Result<()>
    ensures { Tells W.lines out.old out.new result (rate_text count.now) }
{
    match count.rate {
        Some(rate) => write_sampled(count.domain, rate, count.records, out),
        None => write_unrated(count.domain, count.records, out),
    }
}

#[tactic(auto, unfolding(crate::specs::SamplingLines::sampled_text))]
fn write_sampled<W: WriteLines>(
    domain: u32,
    rate: Rate,
    records: u64,
    out: &mut W,
) -> io::Result<()>
    ensures { Tells W.lines out.old out.new result
        (sampled_text domain rate records) }
{
    let Rate {
        selected,
        population,
    } = rate;
    writeln!(
        out,
        ": domain {domain}: sampled {selected} of {population} (records {records})"
    )
}

#[tactic(auto, unfolding(crate::specs::SamplingLines::unrated_text))]
fn write_unrated<W: WriteLines>(domain: u32, records: u64, out: &mut W) -> io::Result<()>
    ensures { Tells W.lines out.old out.new result (unrated_text domain records) }
{
    writeln!(out, ": domain {domain}: unrated (records {records})")
}
