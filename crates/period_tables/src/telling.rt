//! The lines about a period, and how the command ends by it.

ghost use Rattle.std.specs.Prelude.{◌≡◌};
ghost use Rattle.report_writing.specs.Told.{AreToldTo};
ghost use Rattle.report_writing.specs.Writing.{Tells};
ghost use Rattle.period_tables.specs.Telling.{outcome_lines, outcome_paths, outcome_status, path_line, period_line, reason_status, removal_line, removal_status, state_line, unlisted_lines, unread_words, worse};

use crate::outcome::Outcome;
use report_writing::{Reason, Status, Verbosity, WriteLines, write_not_had_because};
use std::io;

/// Lines about folders always have the system's reason.
const WITH_REASONS: Verbosity = Verbosity {
    verbose: true,
    strict: false,
};

/// Writes what became of a table of a period, unless it was made well or stays, and answers how the command ends by it.
/// A line says what the period waits for only if it is time for that.
pub fn tell_outcome<E: WriteLines>(
    period: &str,
    table: &str,
    outcome: &Outcome,
    tells: bool,
    err: &mut E,
) -> Status
    ensures status { result ≡ outcome_status outcome.now }
    ensures told { AreToldTo E.lines err.old err.new
        (outcome_lines tells period.now table.now outcome.now) }
{
    // (a line that can't be written stops nothing)
    let _ = write_outcome(period, table, outcome, tells, err);
    status_of(outcome)
}

fn write_outcome<E: WriteLines>(
    period: &str,
    table: &str,
    outcome: &Outcome,
    tells: bool,
    err: &mut E,
) -> io::Result<()>
    ensures { Tells E.lines err.old err.new result
        (outcome_lines tells period.now table.now outcome.now) }
{
    match outcome {
        Outcome::NotOver | Outcome::UpToDate | Outcome::Made(false) => Ok(()),
        Outcome::Made(true) => write_state(table, "made with a fault", err),
        Outcome::HeldUp(name) if tells => write_period(period, "not finished", name.as_str(), err),
        Outcome::HeldUp(_) => Ok(()),
        Outcome::FileGone(path) => write_period(table, "gone", path.as_str(), err),
        Outcome::NotRead(reason) => write_period(table, "not read", words_of_unread(*reason), err),
        Outcome::NotMade(_) => write_state(table, "not made", err),
        Outcome::NotPut(reason) => write_period(table, "not written", reason.words(), err),
    }
}

/// Why a period can't be read, in words.
pub fn words_of_unread(reason: Reason) -> &'static str
    ensures { result.now ≡ unread_words reason }
{
    match reason {
        Reason::NotValid => "no receipt of this plan",
        reason => reason.words(),
    }
}

/// Writes a line about a period, with the name of what it is about, or why.
#[tactic(auto, unfolding(crate::specs::Telling::period_line))]
pub fn write_period<E: WriteLines>(
    period: &str,
    what: &str,
    name: &str,
    err: &mut E,
) -> io::Result<()>
    ensures { Tells E.lines err.old err.new result
        (period_line period.now what.now name.now) }
{
    writeln!(err, "collectd: tables: {period}: {what}: {name}")
}

#[tactic(auto, unfolding(crate::specs::Telling::state_line))]
fn write_state<E: WriteLines>(period: &str, state: &str, err: &mut E) -> io::Result<()>
    ensures { Tells E.lines err.old err.new result (state_line period.now state.now) }
{
    writeln!(err, "collectd: tables: {period}: {state}")
}

/// Writes the path of a table if it was made.
pub fn write_paths<O: WriteLines>(path: &str, outcome: &Outcome, out: &mut O)
    ensures { AreToldTo O.lines out.old out.new (outcome_paths path.now outcome.now) }
{
    if let Outcome::Made(_) = outcome {
        let _ = write_path(path, out);
    }
}

/// Writes the path of a table.
#[tactic(auto, unfolding(crate::specs::Telling::path_line))]
pub fn write_path<O: WriteLines>(path: &str, out: &mut O) -> io::Result<()>
    ensures { Tells O.lines out.old out.new result (path_line path.now) }
{
    writeln!(out, "{path}")
}

/// Writes that the folder of recordings of this path can't be listed, if it is time for that.
pub fn tell_unlisted<E: WriteLines>(from: &str, reason: Reason, tells: bool, err: &mut E)
    ensures { AreToldTo E.lines err.old err.new (unlisted_lines tells from.now reason) }
{
    if tells {
        let _ = write_not_had_because(WITH_REASONS, "folder", from, reason, err);
    }
}

/// Writes that the recordings of the period of this name were removed, or why not, and answers how the command ends by it.
pub fn tell_removal<E: WriteLines>(period: &str, removed: Result<(), Reason>, err: &mut E) -> Status
    ensures status { result ≡ removal_status removed }
    ensures told { AreToldTo E.lines err.old err.new (removal_line period.now removed) }
{
    match removed {
        Ok(()) => {
            let _ = write_state(period, "removed", err);
            Status::Well
        }
        Err(reason) => {
            let _ = write_period(period, "not removed", reason.words(), err);
            Status::SessionFault
        }
    }
}

fn status_of(outcome: &Outcome) -> Status
    ensures { result ≡ outcome_status outcome.now }
{
    match outcome {
        Outcome::NotOver | Outcome::UpToDate | Outcome::Made(false) => Status::Well,
        Outcome::HeldUp(_) | Outcome::FileGone(_) | Outcome::Made(true) => Status::SessionFault,
        Outcome::NotRead(reason) => status_of_reason(*reason),
        Outcome::NotMade(status) => *status,
        Outcome::NotPut(_) => Status::Failed,
    }
}

/// How the command ends if something can't be read for this reason.
pub fn status_of_reason(reason: Reason) -> Status
    ensures { result ≡ reason_status reason }
{
    match reason {
        Reason::OutOfMemory => Status::Failed,
        _ => Status::NotOpened,
    }
}

/// Of two ends of a command the worse.
pub fn worse_of(one: Status, other: Status) -> Status
    ensures { result ≡ worse one other }
{
    if one.number() <= other.number() {
        other
    } else {
        one
    }
}
