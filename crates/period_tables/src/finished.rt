//! The table of a finished period.

ghost use Rattle.std.specs.Prelude.{◌≡◌};
ghost use Rattle.recording_periods.specs.TableStates.{IsTableState};
ghost use Rattle.period_tables.specs.Outcomes.{IsDueOutcome, IsFinishedOutcome, IsGoneOutcome};
ghost use Rattle.period_tables.specs.Standing.{items_of};

use crate::desk::Desk;
use crate::outcome::Outcome;
use crate::place::TablePlace;
use crate::recordings::Recordings;
use input_sources::OpenSource;
use ipfix_session::Source;
use period_collect::{TableMaker, make_table};
use recording_names::Period;
use recording_periods::{TableState, finished_files, table_state};
use report_writing::{Reason, WriteLines};
use std::alloc::{AllocError, Global};
use std::rt::Clock;
use std::sync::Wait;
use std::thread::Threads;

/// Makes the table of a finished period if it is due.
pub(crate) fn take_finished<
    F: Recordings,
    S: Source + Send + Drop,
    O: OpenSource<S>,
    E: WriteLines,
    T: TablePlace,
    R: Clock + Threads + Wait + Sync,
>(
    threads: &R,
    desk: &mut Desk<F, TableMaker<'_, S, O, E>, T>,
    alloc: Global,
    period: Period,
) -> Outcome
    ensures { IsFinishedOutcome F.Recordings period.begins result desk.old desk.new }
{
    let names = match desk.folder.files(period) {
        Ok(names) => names,
        Err(reason) => return Outcome::NotRead(reason),
    };
    let files = match finished_files(alloc, names) {
        Ok(files) => files,
        Err(AllocError) => return Outcome::NotRead(Reason::OutOfMemory),
    };
    let paths = match desk.tables.receipt_files(period) {
        Ok(paths) => paths,
        Err(reason) => return Outcome::NotRead(reason),
    };
    match state_of(&files, &paths) {
        TableState::UpToDate => Outcome::UpToDate,
        TableState::Gone(path) => file_gone(alloc, path),
        TableState::Due => make_due(threads, desk, period, &files),
    }
}

// Whether the table of these files is due, by the paths of its receipt.
fn state_of<'p>(files: &[String], paths: &'p Option<Vec<String>>) -> TableState<'p>
    ensures { IsTableState files.now (items_of paths.now) result }
{
    match paths {
        Some(paths) => table_state(files, Some(paths.as_slice())),
        None => table_state(files, None),
    }
}

// A file of this path is gone.
fn file_gone(alloc: Global, path: &str) -> Outcome
    ensures { IsGoneOutcome path.now result }
{
    match String::from_str(alloc, path) {
        Ok(path) => Outcome::FileGone(path),
        Err(AllocError) => Outcome::NotRead(Reason::OutOfMemory),
    }
}

// Makes the table of these files, and puts it.
fn make_due<
    F: Recordings,
    S: Source + Send + Drop,
    O: OpenSource<S>,
    E: WriteLines,
    T: TablePlace,
    R: Clock + Threads + Wait + Sync,
>(
    threads: &R,
    desk: &mut Desk<F, TableMaker<'_, S, O, E>, T>,
    period: Period,
    files: &[String],
) -> Outcome
    ensures outcome { IsDueOutcome period.begins files.now result desk.old desk.new }
    ensures folder { desk.new.folder ≡ desk.old.folder }
{
    let made = match make_table(threads, &mut desk.maker, period, files) {
        Ok(made) => made,
        Err(status) => return Outcome::NotMade(status),
    };
    match desk.tables.put(period, &made.text, &made.receipt) {
        Ok(()) => Outcome::Made(made.had_fault),
        Err(reason) => Outcome::NotPut(reason),
    }
}
