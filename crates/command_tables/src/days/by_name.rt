//! The tables of periods and their receipts, by the names of the periods.

ghost use Rattle.std.specs.Prelude.{◌≡◌, ◌≢◌, ◌++◌, ℕ, List, IfErr, IfNone, IfOk, IfSome, MatchOption, codes};
ghost use Rattle.exporter_names.specs.Cuts.{CutsAtLast};
ghost use Rattle.exporter_names.specs.RecordedExporters.{slash};
ghost use Rattle.command_tables.specs.TextsByName.{IsReceiptText, IsTableText, NamesNone, NamesPeriod, RefusesNamed};

use input_files::ReadText;
use period_tables::TablePlace;
use recording_names::Period;
use recording_periods::read_period_at;
use report_writing::Reason;
use std::alloc::Global;

/// The tables at a place, under the names of their periods, and their receipts, under these with `.receipt` at the end.
#[derive(Drop)]
pub struct ByName<'t, T> {
    pub tables: &'t T,
}

impl<'t, T: TablePlace> ReadText for ByName<'t, T> {
    ghost use Rattle.command_tables.specs.TextsByName.{HasText, RefusesText};

    ghost has = { λ texts path text. HasText T.seen texts.tables.now path text };

    ghost refuses = { λ texts path reason.
        RefusesText T.seen texts.tables.now path reason };

    fn read_text(&self, _alloc: Global, path: &str) -> Result<Vec<u8>, Reason> {
        match receipt_of(path) {
            Some(name) => read_receipt(self.tables, name),
            None => read_table(self.tables, path),
        }
    }
}

// The name of the table whose receipt has this path.
fn receipt_of(path: &str) -> Option<&str>
    ensures none { IfNone result ((name : List ℕ) → path.now ≢ name ++ codes ".receipt") }
    ensures name { IfSome result (λ name. path.now ≡ name.now ++ codes ".receipt") }
{
    path.strip_suffix(".receipt")
}

// The text of the receipt of the period of this name.
fn read_receipt<T: TablePlace>(tables: &T, name: &str) -> Result<Vec<u8>, Reason>
    ensures text { IfOk result (λ text. IsReceiptText T.seen tables.now name.now text.items) }
    ensures refused { IfErr result
        (RefusesNamed T.seen tables.now name.now) }
{
    let Some(period) = period_named(name) else {
        return Err(Reason::NoSuchFile);
    };
    match tables.standing_receipt(period) {
        Ok(Some(text)) => Ok(text),
        Ok(None) => Err(Reason::NoSuchFile),
        Err(reason) => Err(reason),
    }
}

// The text of its table.
fn read_table<T: TablePlace>(tables: &T, name: &str) -> Result<Vec<u8>, Reason>
    ensures text { IfOk result (λ text. IsTableText T.seen tables.now name.now text.items) }
    ensures refused { IfErr result
        (RefusesNamed T.seen tables.now name.now) }
{
    let Some(period) = period_named(name) else {
        return Err(Reason::NoSuchFile);
    };
    tables.standing_table(period)
}

// The period of a name.
fn period_named(name: &str) -> Option<Period>
    ensures { MatchOption result (NamesNone name.now) (λ period. NamesPeriod period.begins name.now) }
{
    let (day, time) = split_name(name)?;
    read_period_at(day, time)
}

// What stands before and after the last slash.
fn split_name(name: &str) -> Option<(&str, &str)>
    ensures { CutsAtLast slash name.now result }
{
    name.rsplit_once('/')
}
