//! The command `elements`.

ghost use Rattle.std.specs.Prelude.{◌≡◌, ◌⊎◌, true, false, [], map};
ghost use Rattle.std.specs.Option.{option_copied};
ghost use Rattle.ipfix_elements.specs.Writers.{Writes};
ghost use Rattle.input_files.specs.Loaded.{Loads};
ghost use Rattle.report_writing.specs.Lines.{StaysFailed};
ghost use Rattle.report_writing.specs.Told.{AreToldTo};
ghost use Rattle.command_elements.specs.ErrorLines.{failed_line, none_line};
ghost use Rattle.command_elements.specs.Runs.{RunsElements};
ghost use Rattle.command_elements.specs.Searches.{ShowsAll};

use crate::error_lines::{write_failed, write_none};
use crate::listing::list_elements;
use crate::search::Search;
use input_files::{ReadText, load_elements};
use report_writing::{Status, Verbosity, WriteLines};
use std::alloc::Global;
use std::io::Write;

/// Reads files of elements, as [`load_elements`] does, and writes to `out` what [`list_elements`] writes of the
/// built-in elements and theirs. Answers `Well` if a line was written; `NotOpened` if a file was not read, or if the
/// word fits no element, and then nothing was written; `Failed` if it couldn't be written. Each of the last three is
/// told by a line to `err`, whose own faults are passed over.
#[tactic(auto, using(crate::proofs::Joined::none_written))]
pub fn run_elements<T: ReadText, W: Write, E: WriteLines>(
    files: &T,
    alloc: Global,
    paths: &[&str],
    word: Option<&str>,
    verbosity: Verbosity,
    out: &mut W,
    err: &mut E,
) -> Status
    ensures runs { RunsElements
        (Loads (T.has files.now) (T.refuses files.now) verbosity [] (map (λ path. path.now) paths.now))
        (option_copied word.entry) (Writes W.contents out.old out.new)
        (AreToldTo E.lines err.old err.new) result }
    ensures kept { StaysFailed E.lines err.old err.new }
{
    match load_elements(files, alloc, paths, verbosity, err) {
        Some(elements) => {
            let search = Search {
                elements: &elements,
                word,
            };
            list_known(&search, out, err)
        }
        None => Status::NotOpened,
    }
}

fn list_known<W: Write, E: WriteLines>(search: &Search, out: &mut W, err: &mut E) -> Status
    ensures statuses { (result ≡ Status.Well) ⊎ (result ≡ Status.NotOpened)
        ⊎ (result ≡ Status.Failed) }
    ensures listed { result ≡ Status.Well
        → ShowsAll W.contents out.old out.new search.now true }
    ensures untold { result ≡ Status.Well → err.new ≡ err.old }
    ensures none { result ≡ Status.NotOpened
        → ShowsAll W.contents out.old out.new search.now false }
    ensures none_told { result ≡ Status.NotOpened
        → AreToldTo E.lines err.old err.new none_line }
    ensures failed { result ≡ Status.Failed
        → AreToldTo E.lines err.old err.new failed_line }
    ensures kept { StaysFailed E.lines err.old err.new }
{
    match list_elements(search, out) {
        Ok(true) => Status::Well,
        Ok(false) => {
            let _ = write_none(err);
            Status::NotOpened
        }
        Err(_) => {
            let _ = write_failed(err);
            Status::Failed
        }
    }
}
