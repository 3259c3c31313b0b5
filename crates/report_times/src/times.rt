//! The lines of sessions.

ghost use Rattle.report_times.specs.TimesLines.{session_times, times_at, times_lines, times_told};
ghost use Rattle.report_writing.specs.Writing.{Tells};

use crate::starts::write_starts;
use crate::untimed::write_untimed;
use flow_times::{TimeNoting, TimesReport};
use report_writing::{Origin, WriteLines};
use std::io;

/// Writes what was noted of the times of sessions, which are counted from 1: of each all of whose flows are untimed by
/// which element they say a time, if there is one, and the word of a plan that reads it; or how many flows have which
/// element of a start. After a session's number stands the origin at its place in `origins`; none if it is missing there.
pub fn write_times<W: WriteLines>(
    noting: TimeNoting,
    origins: &[Origin],
    sessions: &[TimesReport],
    out: &mut W,
) -> io::Result<()>
    ensures { Tells W.lines out.old out.new result
        (times_told noting origins.now sessions.now) }
{
    match noting {
        TimeNoting::Nothing => Ok(()),
        TimeNoting::Untimed | TimeNoting::Starts => write_sessions(noting, origins, sessions, out),
    }
}

fn write_sessions<W: WriteLines>(
    noting: TimeNoting,
    origins: &[Origin],
    sessions: &[TimesReport],
    out: &mut W,
) -> io::Result<()>
    ensures { Tells W.lines out.old out.new result
        (times_lines noting origins.now sessions.now) }
{
    for (index, report) in sessions.iter().enumerate() {
        write_numbered(noting, index + 1, origins, report, out)?;
    }
    Ok(())
}

// The line of the session of this number, counted from 1.
fn write_numbered<W: WriteLines>(
    noting: TimeNoting,
    session: usize,
    origins: &[Origin],
    report: &TimesReport,
    out: &mut W,
) -> io::Result<()>
    ensures { Tells W.lines out.old out.new result
        (times_at noting origins.now session report.now) }
{
    match origins.get(session.saturating_sub(1)) {
        Some(origin) => write_session(noting, session, origin, report, out),
        None => write_session(noting, session, &Origin::Unknown, report, out),
    }
}

fn write_session<W: WriteLines>(
    noting: TimeNoting,
    number: usize,
    origin: &Origin,
    report: &TimesReport,
    out: &mut W,
) -> io::Result<()>
    ensures { Tells W.lines out.old out.new result
        (session_times noting number origin.now report.now) }
{
    match noting {
        TimeNoting::Nothing => Ok(()),
        TimeNoting::Untimed => write_untimed(number, origin, report.untimed, out),
        TimeNoting::Starts => write_starts(number, origin, &report.starts, out),
    }
}
