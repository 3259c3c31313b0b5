//! Taking the table of a day in a round, and writing what became of it.

ghost use Rattle.command_tables.specs.TakingDays.{TakesDay, TakesDayText, TakesOneDay};

use super::calendar::{Calendar, day_of};
use super::day_job::DayJob;
use super::placing::{PlacedPeriod, is_due, periods_of};
use super::taking::take_day;
use crate::texts::{TextJob, take_text, tell_text, write_text_path};
use period_tables::{Round, TablePlace, Work, tell_outcome, write_paths};
use recording_names::Period;
use report_writing::{Status, WriteLines};

/// How many seconds after its end a day is due in any case.
const PAUSE: u64 = 3_600;

/// Where the tables of days or months are put, and how they are made.
#[derive(Drop)]
pub struct DayTables<'a, T> {
    pub calendar: Calendar<'a>,
    pub job: DayJob<'a>,
    pub place: T,
}

/// Where their texts in another format are put, and how they are made.
#[derive(Drop)]
pub struct DayTexts<'a, T> {
    pub job: TextJob<'a>,
    pub place: T,
}

/// Takes the table of a day if it is due, of these periods with tables, each with the day that it begins in, and writes what
/// became of it.
pub fn take_day_of<F, M, T: TablePlace + Drop, P: WriteLines, L: WriteLines>(
    work: &mut Work<F, M, T, P, L>,
    made: &mut DayTables<'_, T>,
    round: Round,
    placed: &[PlacedPeriod],
    day: Period,
) -> Status
    ensures { TakesDay
        round.entry placed.now day.begins result work.old work.new made.old made.new }
{
    let hour_ago = day_of(&made.calendar, round.now.saturating_sub(PAUSE));
    if !is_due(placed, hour_ago, day) {
        return Status::Well;
    }
    let Ok(periods) = periods_of(round.alloc, placed, day) else {
        return Status::Failed;
    };
    take_and_tell(work, made, round, &periods, day)
}

// Takes the table of a day that is due, and writes what became of it.
fn take_and_tell<F, M, T: TablePlace + Drop, P: WriteLines, L: WriteLines>(
    work: &mut Work<F, M, T, P, L>,
    made: &mut DayTables<'_, T>,
    round: Round,
    periods: &[Period],
    day: Period,
) -> Status
    ensures { TakesOneDay periods.now day.begins result work.old work.new made.old made.new }
{
    let Ok(path) = made.place.table_path(day) else {
        return Status::Failed;
    };
    let DayTables { job, place, .. } = made;
    let desk = &work.desk;
    let outcome = take_day(
        round.alloc,
        job,
        &desk.tables,
        place,
        day,
        periods,
        &mut work.err,
    );
    let name = path.as_str();
    write_paths(name, &outcome, &mut work.out);
    tell_outcome(name, name, &outcome, true, &mut work.err)
}

/// Takes the text of the table of a day, if it has one, and writes what became of it.
pub fn take_day_text<F, M, T: TablePlace, P: WriteLines, L: WriteLines>(
    work: &mut Work<F, M, T, P, L>,
    made: &DayTables<'_, T>,
    texts: &mut DayTexts<'_, T>,
    round: Round,
    day: Period,
) -> Status
    ensures { TakesDayText
        day.begins result work.old work.new made.now texts.old texts.new }
{
    let Ok(table) = made.place.table_path(day) else {
        return Status::Failed;
    };
    let Ok(path) = texts.place.table_path(day) else {
        return Status::Failed;
    };
    let DayTexts { job, place } = texts;
    let outcome = take_text(round.alloc, job, &made.place, place, day);
    write_text_path(path.as_str(), &outcome, &mut work.out);
    tell_text(table.as_str(), &outcome, &mut work.err)
}
