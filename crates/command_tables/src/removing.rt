//! Removing recordings that are kept no longer.

use crate::making::TablesRun;
use crate::plans::PlanWork;
use period_tables::{
    Recordings, TablePlace, status_of_reason, tell_removal, tell_unlisted, worse_of,
};
use recording_names::{Period, period_name};
use recording_periods::{is_old, may_remove};
use report_writing::{CheckedWriter, Reason, Status};
use tables_folder::{RecordingsFolder, clear_removed, days_in, periods_in, remove_period};

/// Removes the recordings of each period that began so many seconds before this one and of which each plan has the table of
/// exactly their files. (What can't be listed or read for that, the rounds of the plans tell.)
pub(crate) fn remove_old(run: TablesRun, keep: u64, now: u64, plans: &mut [PlanWork]) -> Status {
    if let Err(reason) = clear_removed(run.rt, run.from) {
        let mut err = CheckedWriter::new(run.rt.stderr());
        tell_unlisted(run.from, reason, true, &mut err);
        return status_of_reason(reason);
    }
    match remove_listed(run, keep, now, plans) {
        Ok(status) => status,
        Err(reason) => status_of_reason(reason),
    }
}

// Lists what isn't finished, and then each period. An `Err` says why they can't be listed.
fn remove_listed(
    run: TablesRun,
    keep: u64,
    now: u64,
    plans: &mut [PlanWork],
) -> Result<Status, Reason> {
    let mut folder = RecordingsFolder::new(run.rt, run.from);
    let unfinished = folder.unfinished()?;
    let mut status = Status::Well;
    for period in old_periods(run, keep, now)? {
        let Ok(names) = folder.files(period) else {
            continue;
        };
        let receipts = receipts_of(run, plans, period)?;
        let unfinished = unfinished.as_slice();
        if may_remove(run.rule, keep, now, unfinished, period, &names, &receipts) {
            status = worse_of(status, remove_one(run, period));
        }
    }
    Ok(status)
}

// The periods that began so many seconds ago, of the days that can be listed.
fn old_periods(run: TablesRun, keep: u64, now: u64) -> Result<Vec<Period>, Reason> {
    let days = match days_in(run.rt, run.from) {
        Ok(days) => days,
        Err(error) => return Err(Reason::of(&error)),
    };
    let mut old = Vec::new(run.rt.alloc());
    for day in &days {
        let Ok(periods) = periods_in(run.rt, run.from, day.as_str()) else {
            continue;
        };
        for period in periods {
            if is_old(keep, now, period) && old.push(period).is_err() {
                return Err(Reason::OutOfMemory);
            }
        }
    }
    Ok(old)
}

// What the receipt of each plan names for a period, if it has one that can be read.
fn receipts_of(
    run: TablesRun,
    plans: &mut [PlanWork],
    period: Period,
) -> Result<Vec<Option<Vec<String>>>, Reason> {
    let mut receipts = Vec::new(run.rt.alloc());
    for plan in plans {
        let work = &mut plan.work;
        let desk = &mut work.desk;
        let paths = desk.tables.receipt_files(period).unwrap_or(None);
        if receipts.push(paths).is_err() {
            return Err(Reason::OutOfMemory);
        }
    }
    Ok(receipts)
}

// Removes the recordings of a period, and writes that, or why not.
fn remove_one(run: TablesRun, period: Period) -> Status {
    let Ok(name) = period_name(run.rt.alloc(), period) else {
        return Status::Failed;
    };
    let removed = remove_period(run.rt, run.from, period);
    let mut err = CheckedWriter::new(run.rt.stderr());
    tell_removal(name.as_str(), removed, &mut err)
}
