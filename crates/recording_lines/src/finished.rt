//! Files that are finished have a line each.

ghost use Rattle.recording_lines.specs.RecordLines.{notice_line};
ghost use Rattle.report_writing.specs.Writing.{Tells};

use crate::file_lines::{write_finished, write_not_finished};
use crate::recovered_lines::write_outcome;
use crate::whole_lines::WholeLines;
use recording_files::{FileReport, FinishedFiles, Recovered};
use report_writing::WriteLines;
use std::io::{self, Write};

impl<E: Write + Drop> FinishedFiles for WholeLines<E> {
    ghost tells = { λ before notice told after.
        Tells ⟦<WholeLines<E> as WriteLines>⟧.lines
        before after told (notice_line notice) };

    fn finished(&mut self, path: &str, report: &FileReport) -> io::Result<()> {
        write_finished(path, report, self)
    }

    fn not_finished(&mut self, path: &str) -> io::Result<()> {
        write_not_finished(path, self)
    }

    fn recovered(&mut self, path: &str, outcome: Recovered) -> io::Result<()> {
        write_outcome(path, outcome, self)
    }
}
