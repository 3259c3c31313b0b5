//! Reading files of elements.

ghost use Rattle.std.specs.Prelude.{ℕ, List, [], map, IfNone, IfSome};
ghost use Rattle.report_writing.specs.Lines.{StaysFailed};
ghost use Rattle.report_writing.specs.Told.{AreToldTo};
ghost use Rattle.input_files.specs.FileLines.{unknown_type_lines};
ghost use Rattle.input_files.specs.Loaded.{Adds, Loads, Stops};

use crate::file_lines::{write_error, write_unknown_type};
use crate::reading::ReadText;
use element_registry::{Elements, add_file};
use report_writing::{Verbosity, WriteLines, write_not_had_because};
use std::alloc::Global;

/// Reads files of elements in their order, as [`add_file`] does. If one can't be had, or has a fault, the answer is
/// `None`, no file after it is read, and `err` has a line that says so. A file that has rows with types that are
/// not known has a line, too, of the first of these rows.
pub fn load_elements<T: ReadText, E: WriteLines>(
    files: &T,
    alloc: Global,
    mut paths: &[&str],
    verbosity: Verbosity,
    err: &mut E,
) -> Option<Elements>
    // The files were added one after another, and exactly what there is to tell of them was told.
    ensures loads { (lines : List ℕ) × Loads (T.has files.now) (T.refuses files.now) verbosity []
        (map (λ path. path.now) paths.entry.now) result lines
        × AreToldTo E.lines err.old err.new lines }
    ensures kept { StaysFailed E.lines err.old err.new }
{
    let mut elements = Elements::built_in(alloc);
    while let [path, rest @ ..] = paths {
        elements = add_path(files, alloc, elements, path, verbosity, err)?;
        paths = rest;
    }
    Some(elements)
}

// Adds the file of a path.
fn add_path<T: ReadText, E: WriteLines>(
    files: &T,
    alloc: Global,
    elements: Elements,
    path: &str,
    verbosity: Verbosity,
    err: &mut E,
) -> Option<Elements>
    ensures adds { IfSome result (λ more. (lines : List ℕ)
        × Adds (T.has files.now) elements path.now more lines
        × AreToldTo E.lines err.old err.new lines) }
    ensures stops { IfNone result ((lines : List ℕ)
        × Stops (T.has files.now) (T.refuses files.now) verbosity elements path.now lines
        × AreToldTo E.lines err.old err.new lines) }
    ensures kept { StaysFailed E.lines err.old err.new }
{
    let octets = match files.read_text(alloc, path) {
        Ok(octets) => octets,
        Err(reason) => {
            let _ = write_not_had_because(verbosity, "open", path, reason, err);
            return None;
        }
    };
    match add_file(alloc, elements, &octets) {
        Ok(added) => {
            tell_unknown_type(path, added.unknown_type, err);
            Some(added.elements)
        }
        Err(error) => {
            let _ = write_error(path, &error, err);
            None
        }
    }
}

fn tell_unknown_type<E: WriteLines>(path: &str, unknown_type: Option<u64>, err: &mut E)
    ensures told { AreToldTo E.lines err.old err.new
        (unknown_type_lines path.now unknown_type) }
    ensures kept { StaysFailed E.lines err.old err.new }
{
    if let Some(line) = unknown_type {
        let _ = write_unknown_type(path, line, err);
    }
}
