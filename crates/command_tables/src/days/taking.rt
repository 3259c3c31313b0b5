//! The table of a day.

ghost use Rattle.std.specs.Prelude.{IfErr, IfOk};
ghost use Rattle.report_writing.specs.Told.{AreToldTo};
ghost use Rattle.command_tables.specs.DayOutcomes.{IsDayOutcome, IsDueOutcome, IsNotSettled, IsPartsOutcome, StandsAs};

use super::by_name::ByName;
use super::day_job::DayJob;
use super::merging::merge_of;
use super::names::{files_of, names_of};
use super::standing::{Standing, stands_for};
use period_tables::{Outcome, TablePlace};
use recording_names::Period;
use report_writing::{Reason, Status, WriteLines};
use std::alloc::Global;
use table_parts::PartFiles;

/// Merges the tables in IPFIX of these periods that stand in `tables`, by their receipts, and puts the table of all of them into
/// `days`, as that of this day, unless the one there is of exactly these: its receipt says what theirs do together. If its receipt
/// has an input that theirs don't have any more, or one can't be merged, the table of the day stays as it is; of a merge that
/// fails `err` has the lines that say why.
pub fn take_day<T: TablePlace + Drop, E: WriteLines>(
    alloc: Global,
    job: &DayJob,
    tables: &T,
    days: &mut T,
    day: Period,
    periods: &[Period],
    err: &mut E,
) -> Outcome
    ensures { IsDayOutcome T.seen E.lines
        job.now periods.now day.begins result tables.now days.old days.new err.old err.new }
{
    let Ok(names) = names_of(alloc, periods) else {
        return Outcome::NotMade(Status::Failed);
    };
    let Ok(parts) = files_of(alloc, &names) else {
        return Outcome::NotMade(Status::Failed);
    };
    let texts = ByName { tables };
    take_parts(alloc, job, &texts, days, day, &parts, err)
}

// The same of parts that have names.
fn take_parts<T: TablePlace + Drop, E: WriteLines>(
    alloc: Global,
    job: &DayJob,
    texts: &ByName<'_, T>,
    days: &mut T,
    day: Period,
    parts: &[PartFiles],
    err: &mut E,
) -> Outcome
    ensures { IsPartsOutcome T.seen E.lines
        job.now parts.entry day.begins result texts.now.tables.now days.old days.new err.old err.new }
{
    match standing_of(alloc, job, texts, days, day, parts) {
        Ok(Standing::Theirs) => Outcome::UpToDate,
        Ok(Standing::Others) => make_due(alloc, job, texts, days, day, parts, err),
        Ok(Standing::Lacking(name)) => Outcome::FileGone(name),
        Err(reason) => Outcome::NotRead(reason),
    }
}

// How the table that there is stands to these parts; if there is none, others are to be merged.
fn standing_of<T: TablePlace + Drop>(
    alloc: Global,
    job: &DayJob,
    texts: &ByName<'_, T>,
    days: &T,
    day: Period,
    parts: &[PartFiles],
) -> Result<Standing, Reason>
    ensures ok { IfOk result
        (StandsAs T.seen job.now parts.entry day texts.now.tables.now days.now) }
    ensures reason { IfErr result
        (IsNotSettled T.seen day.begins days.now) }
{
    match days.standing_receipt(day)? {
        Some(own) => stands_for(texts, alloc, &job.text.at_hand, parts, &own),
        None => Ok(Standing::Others),
    }
}

// Makes a table that is due, and puts it.
fn make_due<T: TablePlace + Drop, E: WriteLines>(
    alloc: Global,
    job: &DayJob,
    texts: &ByName<'_, T>,
    days: &mut T,
    day: Period,
    parts: &[PartFiles],
    err: &mut E,
) -> Outcome
    ensures { IsDueOutcome T.seen
        job.now parts.entry day.begins (AreToldTo E.lines err.old err.new)
        result texts.now.tables.now days.old days.new }
{
    let made = match merge_of(texts, alloc, job, parts, err) {
        Ok(made) => made,
        Err(status) => return Outcome::NotMade(status),
    };
    match days.put(day, &made.text, &made.receipt) {
        Ok(()) => Outcome::Made(made.had_fault),
        Err(reason) => Outcome::NotPut(reason),
    }
}
