//! The finished files of a period.

ghost use Rattle.std.specs.Prelude.{IfOk};
ghost use Rattle.recording_names.specs.FinishedNames.{IsFinishedName};
ghost use Rattle.recording_periods.specs.PeriodFiles.{AreFilesOf, AreFinishedOf};
ghost use Rattle.recording_periods.specs.Whether.{Whether};

use recording_names::{SessionName, read_finished_name};
use std::alloc::{AllocError, Global};
use std::collections::VecDeque;

/// Of the names in a period's folder those of finished files, by the order of their octets. Any other is passed over.
pub fn finished_files(alloc: Global, names: Vec<String>) -> Result<Vec<String>, AllocError>
    ensures { IfOk result (λ files. AreFilesOf names.items files.items) }
{
    let mut files = finished_among(alloc, names)?;
    files.sort()?;
    Ok(files)
}

// Those of finished files, in the same order.
fn finished_among(alloc: Global, names: Vec<String>) -> Result<Vec<String>, AllocError>
    ensures { IfOk result (λ files. AreFinishedOf names.items files.items) }
{
    let mut waiting = VecDeque::from_vec(names);
    let mut files = Vec::new(alloc);
    while let Some(name) = waiting.pop_front() {
        if is_finished_name(name.as_str()) {
            files.push(name)?;
        }
    }
    Ok(files)
}

/// Whether a name is that of a finished file.
pub(crate) fn is_finished_name(name: &str) -> bool
    ensures { Whether result (IsFinishedName name.now) }
{
    match read_finished_name(name) {
        Some(told) => {
            let SessionName { port, number, .. } = told.session;
            prove!(port <= u16::MAX && number <= u64::MAX);
            true
        }
        None => false,
    }
}
