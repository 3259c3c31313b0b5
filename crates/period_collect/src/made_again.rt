//! Who makes a table, and under which plan, told again for each run.

ghost use Rattle.std.specs.Prelude.{◌≡◌, map, IfOk};
ghost use Rattle.table_receipts.specs.Values.{file_value};
ghost use Rattle.period_collect.specs.LeftOutFiles.{AreTextsAt};
ghost use Rattle.period_collect.specs.MadeTables.{IsSameMade};

use crate::places::names_at;
use command_collect::MadeWith;
use std::alloc::{AllocError, Global};
use table_receipts::FileReceipt;

/// The same again, without the inputs of these places.
pub(crate) fn same_made(
    alloc: Global,
    made: &MadeWith,
    paths: &[&str],
    out: &[usize],
) -> Result<MadeWith, AllocError>
    ensures same { IfOk result (λ same. IsSameMade same made.now) }
    ensures left_out { IfOk result (λ same. AreTextsAt out.now paths.now same.left_out.items) }
{
    Ok(MadeWith {
        collectd: made.collectd.clone()?,
        plan: made.plan.clone()?,
        elements: same_files(alloc, &made.elements)?,
        maps: same_files(alloc, &made.maps)?,
        left_out: names_at(alloc, paths, out)?,
    })
}

fn same_files(alloc: Global, files: &[FileReceipt]) -> Result<Vec<FileReceipt>, AllocError>
    ensures { IfOk result (λ same. map file_value same.items ≡ map file_value files.now) }
{
    let mut same = Vec::new(alloc);
    let mut left = files;
    while let Some((file, rest)) = left.split_first() {
        same.push(same_file(file)?)?;
        left = rest;
    }
    Ok(same)
}

fn same_file(file: &FileReceipt) -> Result<FileReceipt, AllocError>
    ensures { IfOk result (λ same. file_value same ≡ file_value file.now) }
{
    Ok(FileReceipt {
        name: file.name.clone()?,
        octets: file.octets,
        sha256: file.sha256,
    })
}
