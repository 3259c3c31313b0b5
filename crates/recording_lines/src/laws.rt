//! Laws of lines that are written in one piece. Each is a function that does nothing, and its contract is the theorem.

ghost use Rattle.std.specs.Prelude.{◌≡◌, ◌++◌, ℕ, List, Some, codes};
ghost use Rattle.recording_lines.specs.declared.whole_lines.WholeLines.{WholeLines};

use crate::whole_lines::WholeLines;
use report_writing::WriteLines;
use std::io::Write;

/// Where the last line has ended nothing is kept back: the writer has all.
pub fn ended_lines_are_written<E: Write + Drop>()
    ensures { (lines : WholeLines E) (text : List ℕ)
        → (⟦<WholeLines<E> as WriteLines>⟧.lines lines).contents ≡ Some (text ++ codes "\n")
        → E.contents lines.out ≡ Some (text ++ codes "\n") }
{}
