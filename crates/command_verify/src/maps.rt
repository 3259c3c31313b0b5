//! The maps of the plan in a receipt.

ghost use Rattle.std.specs.Prelude.{◌≡◌, IfErr, IfOk, map};
ghost use Rattle.report_writing.specs.Lines.{StaysFailed};
ghost use Rattle.report_writing.specs.Told.{AreToldTo};
ghost use Rattle.command_verify.specs.Again.{AreMapsNamed, HasNoMaps, names_said};
ghost use Rattle.command_verify.specs.Verified.{memory_line};

use crate::telling::tell_fault;
use flow_plan_fields::NamedKey;
use input_files::ReadText;
use input_sources::load_maps;
use receipt_maps::{MapsOfPlan, maps_with};
use report_writing::{Status, Verbosity, WriteLines};
use std::alloc::{AllocError, Global};
use table_receipts::{FileReceipt, ReceiptFault};

/// The maps in the texts of the files that a receipt names, with these keys. If a file can't be had, or has a fault, the
/// answer is `NotOpened`, and if memory runs out beside that, `Failed`; `err` has a line.
pub fn load_said_maps<T: ReadText, E: WriteLines>(
    texts: &T,
    alloc: Global,
    said: &[FileReceipt],
    keys: &[NamedKey],
    verbosity: Verbosity,
    err: &mut E,
) -> Result<MapsOfPlan, Status>
    ensures maps { IfOk result
        (AreMapsNamed (T.has texts.now) (names_said said.now) keys.now) }
    ensures silent { IfOk result (λ _. err.new ≡ err.old) }
    ensures told { IfErr result (HasNoMaps (T.has texts.now) (T.refuses texts.now) verbosity
        (names_said said.now) (AreToldTo E.lines err.old err.new)) }
    ensures kept { StaysFailed E.lines err.old err.new }
{
    let Ok(names) = names_of(alloc, said) else {
        return Err(without_memory(err));
    };
    let Some(read) = load_maps(texts, alloc, &names, verbosity, err) else {
        return Err(Status::NotOpened);
    };
    match maps_with(alloc, &names, read, keys) {
        Ok(maps) => Ok(maps),
        Err(AllocError) => Err(without_memory(err)),
    }
}

// There was no memory for the names of files and what is told of them.
fn without_memory<E: WriteLines>(err: &mut E) -> Status
    ensures failed { result ≡ Status.Failed }
    ensures told { AreToldTo E.lines err.old err.new memory_line }
    ensures kept { StaysFailed E.lines err.old err.new }
{
    tell_fault(ReceiptFault::OutOfMemory, err)
}

// The names of files.
fn names_of(alloc: Global, mut files: &[FileReceipt]) -> Result<Vec<&str>, AllocError>
    ensures { IfOk result (λ names. map (λ name. name.now) names.items
        ≡ names_said files.entry.now) }
{
    let mut names = Vec::new(alloc);
    while let [file, rest @ ..] = files {
        names.push(file.name.as_str())?;
        files = rest;
    }
    Ok(names)
}
