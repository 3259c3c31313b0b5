//! A folder of recordings on the disk.

ghost use Rattle.std.specs.Prelude.{⊤, None, IsSorted, IfOk};
ghost use Rattle.std.specs.String.{string_cmp};
ghost use Rattle.tables_folder.specs.FoundPeriods.{AreListedDays, AreListedPeriods, AreListedTables};

use crate::found_periods::{days_among, periods_among, tables_among};
use period_tables::Recordings;
use recording_names::{Period, period_name};
use report_writing::Reason;
use std::{fs, io};

/// The folder of what isn't finished.
const UNFINISHED: &str = "unfinished";

/// A folder of recordings on the disk.
#[derive(Drop)]
pub struct RecordingsFolder<'r> {
    rt: &'r HostRuntime,
    path: &'r str,
}

impl<'r> RecordingsFolder<'r> {
    /// The one of this path.
    pub fn new(rt: &'r HostRuntime, path: &'r str) -> Self {
        RecordingsFolder { rt, path }
    }
}

impl<'r> Recordings for RecordingsFolder<'r> {
    ghost listed = { λ _. None };

    ghost refuses = { λ _ _ _. ⊤ };

    fn unfinished(&mut self) -> Result<Vec<String>, Reason> {
        match names_in(self.rt, self.path, UNFINISHED) {
            Ok(names) => Ok(names),
            Err(error) => Err(Reason::of(&error)),
        }
    }

    fn files(&mut self, period: Period) -> Result<Vec<String>, Reason> {
        let Ok(name) = period_name(self.rt.alloc(), period) else {
            return Err(Reason::OutOfMemory);
        };
        match names_in(self.rt, self.path, name.as_str()) {
            Ok(names) => Ok(names),
            Err(error) => Err(Reason::of(&error)),
        }
    }
}

// The names in a folder that is in another one, by the order of their octets.
fn names_in(rt: &HostRuntime, folder: &str, name: &str) -> io::Result<Vec<String>>
    ensures { IfOk result (λ names. IsSorted string_cmp names.items) }
{
    let path = format!(in rt.alloc(); "{folder}/{name}")?;
    list_names(rt, path.as_str())
}

/// The names in a folder, by the order of their octets.
pub(crate) fn list_names(rt: &HostRuntime, path: &str) -> io::Result<Vec<String>>
    ensures { IfOk result (λ names. IsSorted string_cmp names.items) }
{
    let mut names = Vec::new(rt.alloc());
    for entry in fs::read_dir(rt, path)? {
        let entry = entry?;
        names.push(String::from_str(rt.alloc(), entry.file_name())?)?;
    }
    names.sort()?;
    Ok(names)
}

/// The names of the days of which a folder of recordings has periods, in order.
pub fn days_in(rt: &HostRuntime, folder: &str) -> io::Result<Vec<String>>
    ensures { IfOk result (λ days. AreListedDays days.items) }
{
    let names = list_names(rt, folder)?;
    Ok(days_among(rt.alloc(), names)?)
}

/// The periods of a day, in order.
pub fn periods_in(rt: &HostRuntime, folder: &str, day: &str) -> io::Result<Vec<Period>>
    ensures { IfOk result (λ periods. AreListedPeriods day.now periods.items) }
{
    let names = names_in(rt, folder, day)?;
    Ok(periods_among(rt.alloc(), day, &names)?)
}

/// The periods whose tables in IPFIX are in the folder of a day, in order.
pub(crate) fn table_periods_in(rt: &HostRuntime, folder: &str, day: &str) -> io::Result<Vec<Period>>
    ensures { IfOk result (λ periods. AreListedTables day.now periods.items) }
{
    let names = names_in(rt, folder, day)?;
    Ok(tables_among(rt.alloc(), day, &names)?)
}
