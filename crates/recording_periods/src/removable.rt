//! When the recordings of a period may be removed.

ghost use Rattle.std.specs.Prelude.{◌≤◌, ◌+◌, All, Some, string_bytes};
ghost use Rattle.recording_periods.specs.FinishedPeriods.{IsFinished};
ghost use Rattle.recording_names.specs.FinishedNames.{IsFinishedName};
ghost use Rattle.recording_periods.specs.Removable.{HasTableOf, IsRemovable};
ghost use Rattle.recording_periods.specs.TableStates.{IsTableState};
ghost use Rattle.recording_periods.specs.Whether.{Whether};

use crate::due_tables::{TableState, table_state};
use crate::finished_period::{PeriodRule, PeriodState, period_state};
use crate::period_files::is_finished_name;
use recording_names::Period;

/// Whether the recordings of a period may be removed at this second since 1970, if they are kept for so many seconds from its
/// begin on. These names were in the folder of what isn't finished, and then in that of the period; each plan has a receipt of
/// its table that names files of these paths, or none.
pub fn may_remove(
    rule: PeriodRule,
    keep: u64,
    now: u64,
    unfinished: &[String],
    period: Period,
    names: &[String],
    receipts: &[Option<Vec<String>>],
) -> bool
    ensures { Whether result (IsRemovable rule keep now unfinished.now period names.now receipts.now) }
{
    is_old(keep, now, period)
        && is_finished(rule, now, unfinished, period)
        && are_finished_names(names)
        && !receipts.is_empty()
        && are_tables_of(names, receipts)
}

/// Whether a period began so many seconds ago, or more.
pub fn is_old(keep: u64, now: u64, period: Period) -> bool
    ensures { Whether result (period.begins + keep ≤ now) }
{
    u128::from(period.begins) + u128::from(keep) <= u128::from(now)
}

fn is_finished(rule: PeriodRule, now: u64, unfinished: &[String], period: Period) -> bool
    ensures { Whether result (IsFinished rule now unfinished.now period.begins) }
{
    matches!(
        period_state(rule, now, unfinished, period),
        PeriodState::Finished
    )
}

fn are_finished_names(names: &[String]) -> bool
    ensures { Whether result (All (λ name. IsFinishedName (string_bytes name)) names.now) }
{
    let mut left = names;
    while let Some((name, rest)) = left.split_first() {
        if !is_finished_name(name.as_str()) {
            return false;
        }
        left = rest;
    }
    true
}

// Whether each of these receipts is there, and is that of a table of exactly these files.
fn are_tables_of(files: &[String], receipts: &[Option<Vec<String>>]) -> bool
    ensures { Whether result (All (HasTableOf files.now) receipts.now) }
{
    let mut left = receipts;
    while let Some((receipt, rest)) = left.split_first() {
        if !is_table_of(files, receipt) {
            return false;
        }
        left = rest;
    }
    true
}

fn is_table_of(files: &[String], receipt: &Option<Vec<String>>) -> bool
    ensures { Whether result (HasTableOf files.now receipt.now) }
{
    match receipt {
        Some(paths) => are_exactly(files, paths),
        None => false,
    }
}

// Whether these files are exactly those of these paths.
fn are_exactly(files: &[String], paths: &[String]) -> bool
    ensures { Whether result (IsTableState files.now (Some paths.now) TableState.UpToDate) }
{
    match table_state(files, Some(paths)) {
        TableState::UpToDate => true,
        TableState::Due => false,
        TableState::Gone(_) => false,
    }
}
