//! Taking periods, and writing what became of their tables.

ghost use Rattle.std.specs.Prelude.{◌≡◌, string_bytes, IfOk};
ghost use Rattle.report_writing.specs.Told.{AreToldTo};
ghost use Rattle.period_tables.specs.Taking.{TakesOne, settles};
ghost use Rattle.period_tables.specs.Telling.{label_text, outcome_lines, outcome_paths, outcome_status};

use crate::desk::Work;
use crate::outcome::Outcome;
use crate::place::TablePlace;
use crate::recordings::Recordings;
use crate::taking::take_period;
use crate::telling::{tell_outcome, write_paths};
use input_sources::OpenSource;
use ipfix_session::Source;
use period_collect::TableMaker;
use recording_names::{Period, period_name};
use recording_periods::PeriodRule;
use report_writing::{Status, WriteLines};
use std::alloc::{AllocError, Global};
use std::rt::Clock;
use std::sync::Wait;
use std::thread::Threads;

/// How periods are taken in a round.
#[derive(Clone, Copy)]
pub struct Round<'a> {
    pub alloc: Global,
    /// The path of the folder of recordings.
    pub from: &'a str,
    /// The name of the plan, if there are several: lines about its tables begin with it.
    pub plan: Option<&'a str>,
    pub rule: PeriodRule,
    /// The second since 1970.
    pub now: u64,
    /// Whether lines say what periods wait for.
    pub tells_waiting: bool,
}

/// How a period was taken.
#[derive(Clone, Copy)]
pub(crate) struct Took {
    pub status: Status,
    /// Whether nothing is to be done for it before all days are looked at again.
    pub settled: bool,
}

/// For want of memory a period isn't taken.
const LEFT: Took = Took {
    status: Status::Failed,
    settled: false,
};

/// Takes a period, and writes what became of its table.
pub(crate) fn take_and_tell<
    F: Recordings,
    S: Source + Send + Drop,
    O: OpenSource<S>,
    E: WriteLines,
    T: TablePlace,
    P: WriteLines,
    L: WriteLines,
    R: Clock + Threads + Wait + Sync,
>(
    threads: &R,
    work: &mut Work<F, TableMaker<'_, S, O, E>, T, P, L>,
    round: Round,
    unfinished: &[String],
    period: Period,
) -> Took
    ensures { TakesOne F.Recordings
        round.entry unfinished.now period result work.old work.new }
{
    let Ok(name) = period_name(round.alloc, period) else {
        return LEFT;
    };
    let Ok(label) = label_of(round.alloc, round.plan, &name) else {
        return LEFT;
    };
    let Ok(path) = work.desk.tables.table_path(period) else {
        return LEFT;
    };
    let Round {
        alloc,
        rule,
        now,
        ..
    } = round;
    match take_period(
        threads,
        &mut work.desk,
        alloc,
        rule,
        now,
        unfinished,
        period,
    ) {
        Ok(outcome) => {
            write_paths(path.as_str(), &outcome, &mut work.out);
            let (period, table) = (name.as_str(), label.as_str());
            tell_taken(period, table, &outcome, round.tells_waiting, &mut work.err)
        }
        Err(AllocError) => LEFT,
    }
}

/// What lines call the table of the period of this name.
pub fn label_of(alloc: Global, plan: Option<&str>, name: &String) -> Result<String, AllocError>
    ensures { IfOk result (λ text. string_bytes text ≡ label_text plan.entry (string_bytes name.now)) }
{
    match plan {
        Some(plan) => format!(in alloc; "{plan}/{name}"),
        None => name.clone(),
    }
}

// Writes what became of a table of the period of this name.
fn tell_taken<E: WriteLines>(
    period: &str,
    table: &str,
    outcome: &Outcome,
    tells: bool,
    err: &mut E,
) -> Took
    ensures status { result.status ≡ outcome_status outcome.now }
    ensures settled { result.settled ≡ settles outcome.now }
    ensures told { AreToldTo E.lines err.old err.new
        (outcome_lines tells period.now table.now outcome.now) }
{
    Took {
        status: tell_outcome(period, table, outcome, tells, err),
        settled: is_settled(outcome),
    }
}

fn is_settled(outcome: &Outcome) -> bool
    ensures { result ≡ settles outcome.now }
{
    !matches!(outcome, Outcome::NotOver | Outcome::HeldUp(_))
}
