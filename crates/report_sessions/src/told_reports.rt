//! The lines of sessions in full.

ghost use Rattle.std.specs.Prelude.{◌≡◌, false, map, OnOk};
ghost use Rattle.report_sessions.specs.EndedSessions.{failure_of as failure_by, IsSaidOf, TellsEnded};
ghost use Rattle.report_sessions.specs.ReportLines.{report_lines};
ghost use Rattle.report_sessions.specs.ToldLines.{origin_of, told_lines, told_session};
ghost use Rattle.report_writing.specs.Lines.{Adds};
ghost use Rattle.report_writing.specs.Writing.{Tells};

use crate::balances::write_balances;
use crate::endings::write_end;
use crate::reports::write_session;
use crate::unnamed::write_unnamed;
use element_registry::Elements;
use ipfix_session::{FullReport, Source};
use report_writing::{Origin, Verbosity, WriteLines};
use std::io::{self, ErrorKind};

/// Writes what there is to tell of sessions, counted from 1: for each first what
/// [`write_reports`](crate::write_reports) writes, and that is all if `verbosity` asks for nothing.
///
/// If it is verbose or strict, a line follows for each domain in which something wasn't counted: unknown
/// sets, skipped sets, ignored withdrawals, and records that are unaccounted for. If it is verbose, there
/// follow the elements of the templates in force at the session's end which neither the built-in list nor
/// the files of `elements` name, if there are any; then the place of the session's fault; why its source could
/// not be read on, if it answers that; and how much of it counts. Each of these lines has the origin that stands
/// at the session's place in `origins` after the session's number; none if it is missing there. A session's
/// source stands at its place in `sources`.
pub fn write_told_reports<S: Source, W: WriteLines>(
    verbosity: Verbosity,
    elements: &Elements,
    origins: &[Origin],
    sources: &[S],
    reports: &[FullReport],
    out: &mut W,
) -> io::Result<()>
    // The reason that a session has is what its own source answers; none other has it.
    ensures told { TellsEnded S.failure sources.now reports.now
        (told_lines verbosity elements.now origins.now)
        (Tells W.lines out.old out.new result) }
    // Without these options nothing is added.
    ensures plain { verbosity.verbose ≡ false → verbosity.strict ≡ false
        → OnOk result (Adds W.lines out.old out.new
        (report_lines (map (λ full. full.report) reports.now))) }
{
    for (index, full) in reports.iter().enumerate() {
        let session = index + 1;
        let failure = failure_of(sources, session);
        let origin = origin_at(origins, session);
        write_told_session(verbosity, elements, session, &origin, failure, full, out)?;
    }
    Ok(())
}

// What the system answered to the source of the session of this number, counted from 1, if it says that.
fn failure_of<S: Source>(sources: &[S], session: usize) -> Option<ErrorKind>
    ensures { IsSaidOf (failure_by S.failure sources.now session) result }
{
    match sources.get(session.saturating_sub(1)) {
        Some(source) => source.failure(),
        None => None,
    }
}

// The origin of the session of this number, counted from 1.
fn origin_at<'a>(origins: &[Origin<'a>], session: usize) -> Origin<'a>
    ensures { result ≡ origin_of origins.now session }
{
    match origins.get(session.saturating_sub(1)) {
        Some(origin) => *origin,
        None => Origin::Unknown,
    }
}

/// Writes what there is to tell of the session of this number and origin, as [`write_told_reports`] does.
pub fn write_told_session<W: WriteLines>(
    verbosity: Verbosity,
    elements: &Elements,
    session: usize,
    origin: &Origin,
    failure: Option<ErrorKind>,
    full: &FullReport,
    out: &mut W,
) -> io::Result<()>
    ensures { Tells W.lines out.old out.new result
        (told_session verbosity elements.now session origin.now failure full.now) }
{
    write_session(session, &full.report, out)?;
    write_balances(verbosity, session, origin, &full.balances, out)?;
    write_unnamed(verbosity, elements, session, origin, full, out)?;
    write_end(verbosity, session, origin, failure, full, out)
}
