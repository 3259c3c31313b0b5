//! The names of the parts of a day.

ghost use Rattle.std.specs.Prelude.{◌≡◌, ◌++◌, codes, string_bytes, IfOk};
ghost use Rattle.command_tables.specs.Named.{AreFilesOf, AreNamesOf, IsFilesOf, IsNamesOf};

use recording_names::{Period, period_name};
use std::alloc::{AllocError, Global};
use table_parts::PartFiles;

/// The names of a part: that of its table, which is its period's, and that of its receipt.
#[derive(Drop)]
pub struct PartNames {
    pub table: String,
    pub receipt: String,
}

/// The names of the parts of these periods.
pub(crate) fn names_of(alloc: Global, periods: &[Period]) -> Result<Vec<PartNames>, AllocError>
    ensures { IfOk result (λ names. AreNamesOf periods.now names.items) }
{
    let mut names = Vec::new(alloc);
    for period in periods {
        let part = name_part(alloc, *period)?;
        names.push(part)?;
    }
    Ok(names)
}

fn name_part(alloc: Global, period: Period) -> Result<PartNames, AllocError>
    ensures { IfOk result (IsNamesOf period) }
{
    let table = period_name(alloc, period)?;
    let receipt = receipt_name(alloc, &table)?;
    Ok(PartNames { table, receipt })
}

fn receipt_name(alloc: Global, table: &String) -> Result<String, AllocError>
    ensures { IfOk result (λ name. string_bytes name ≡ string_bytes table.now ++ codes ".receipt") }
{
    format!(in alloc; "{table}.receipt")
}

/// The same as the files of parts.
pub(crate) fn files_of(alloc: Global, names: &[PartNames]) -> Result<Vec<PartFiles>, AllocError>
    ensures { IfOk result (λ files. AreFilesOf names.now files.items) }
{
    let mut files = Vec::new(alloc);
    for part in names {
        files.push(file_names(part))?;
    }
    Ok(files)
}

fn file_names(part: &PartNames) -> PartFiles<'_>
    ensures { IsFilesOf part.now result }
{
    PartFiles {
        table: part.table.as_str(),
        receipt: part.receipt.as_str(),
    }
}
