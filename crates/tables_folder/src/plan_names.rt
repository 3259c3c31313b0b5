//! The name of a plan, and the paths of its tables.

ghost use Rattle.std.specs.Prelude.{◌≢◌, [], string_bytes, IfNone, IfOk, IfSome};
ghost use Rattle.tables_folder.specs.PlanNames.{HasPath, IsBefore, IsNamedPath, IsPlanName, IsShortName, IsTableName, hyphen};
ghost use Rattle.exporter_names.specs.Cuts.{CutsAtLast};
ghost use Rattle.exporter_names.specs.RecordedExporters.{slash};

use exporter_names::file_name;
use recording_names::{Period, period_name};
use std::alloc::{AllocError, Global};

/// The name of the plan's file without `.toml` at its end, unless that is empty.
pub fn plan_name(path: &str) -> Option<&str>
    ensures none { IfNone result (IsPlanName path.now []) }
    ensures name { IfSome result (λ name. IsPlanName path.now name.now) }
    ensures some { IfSome result (λ name. name.now ≢ []) }
{
    let name = short_name(file_name(path));
    if name.is_empty() { None } else { Some(name) }
}

fn short_name(file: &str) -> &str
    ensures { IsShortName file.now result.now }
{
    match file.strip_suffix(".toml") {
        Some(name) => name,
        None => file,
    }
}

/// What tables are of.
#[derive(Clone, Copy, Debug, PartialEq, Eq)]
pub enum TablesOf {
    Periods,
    /// Each day is told as the period that begins with it in UTC.
    Days,
    /// Each month is told so by its first day.
    Months,
}

/// The path of the table of a period, a day or a month in the folder of a plan's tables, with this ending.
pub(crate) fn table_path(
    alloc: Global,
    folder: &String,
    of: TablesOf,
    period: Period,
    ending: &str,
) -> Result<String, AllocError>
    ensures { IfOk result (λ path. HasPath of folder.now ending.now period.begins (string_bytes path)) }
{
    let name = period_name(alloc, period)?;
    let path = path_of(alloc, folder, short_of(of, name.as_str()), ending)?;
    Ok(path)
}

// What a table is named by: its period's name, or its part that names the day or the month, in the folder of such.
fn short_of(of: TablesOf, name: &str) -> TableName<'_>
    ensures { IsTableName of name.now result.folder.now result.name.now }
{
    match of {
        TablesOf::Periods => TableName { folder: "", name },
        TablesOf::Days => TableName {
            folder: "days/",
            name: day_in(name),
        },
        TablesOf::Months => TableName {
            folder: "months/",
            name: month_in(day_in(name)),
        },
    }
}

// The name of a table, and what stands before it.
#[derive(Clone, Copy)]
struct TableName<'n> {
    folder: &'n str,
    name: &'n str,
}

// What stands before the last slash.
fn day_in(name: &str) -> &str
    ensures { IsBefore slash name.now result.now }
{
    match at_slash(name) {
        Some(parts) => parts.0,
        None => name,
    }
}

fn at_slash(name: &str) -> Option<(&str, &str)>
    ensures { CutsAtLast slash name.now result }
{
    name.rsplit_once('/')
}

// What stands before the last hyphen.
fn month_in(day: &str) -> &str
    ensures { IsBefore hyphen day.now result.now }
{
    match at_hyphen(day) {
        Some(parts) => parts.0,
        None => day,
    }
}

fn at_hyphen(day: &str) -> Option<(&str, &str)>
    ensures { CutsAtLast hyphen day.now result }
{
    day.rsplit_once('-')
}

fn path_of(
    alloc: Global,
    folder: &String,
    table: TableName,
    ending: &str,
) -> Result<String, AllocError>
    ensures { IfOk result (λ path. IsNamedPath folder.now table.entry ending.now (string_bytes path)) }
{
    let TableName {
        folder: inner,
        name,
    } = table;
    format!(in alloc; "{folder}/{inner}{name}.{ending}")
}
