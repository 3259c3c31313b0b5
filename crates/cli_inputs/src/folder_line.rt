//! The line of a folder.

ghost use Rattle.std.specs.Prelude.{◌≡◌};
ghost use Rattle.report_writing.specs.Told.{AreToldTo};
ghost use Rattle.report_writing.specs.Writing.{Tells};
ghost use Rattle.cli_inputs.specs.Folders.{file_line, folder_line, is_file as is_kind_of_file};

use crate::refused::WITH_REASONS;
use recording_folder::FolderFault;
use report_writing::{Reason, WriteLines, write_not_had, write_not_had_because};
use std::io::{self, ErrorKind};

/// Writes the line of a folder that can't be opened.
pub fn tell_folder<E: WriteLines>(path: &str, fault: &FolderFault, err: &mut E)
    ensures { AreToldTo E.lines err.old err.new (folder_line path.now fault.now) }
{
    let _ = write_folder(path, fault, err);
}

fn write_folder<E: WriteLines>(path: &str, fault: &FolderFault, err: &mut E) -> io::Result<()>
    ensures { Tells E.lines err.old err.new result (folder_line path.now fault.now) }
{
    match fault {
        FolderFault::InUse => write_not_had("folder in use", path, err),
        FolderFault::NotHad(error) if is_file(error.kind()) => write_file(path, err),
        FolderFault::NotHad(error) => {
            write_not_had_because(WITH_REASONS, "folder", path, Reason::of(error), err)
        }
    }
}

// Whether a folder can't be opened since it, or one in which it is, is a file.
fn is_file(kind: ErrorKind) -> bool
    ensures { result ≡ is_kind_of_file kind }
{
    matches!(kind, ErrorKind::NotADirectory | ErrorKind::AlreadyExists)
}

#[tactic(auto, unfolding(crate::specs::Folders::file_line))]
fn write_file<W: WriteLines>(path: &str, out: &mut W) -> io::Result<()>
    ensures { Tells W.lines out.old out.new result (file_line path.now) }
{
    writeln!(out, "collectd: folder: {path}: it is a file")
}
