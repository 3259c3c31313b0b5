//! Lines that are written in one piece each.

ghost use Rattle.std.specs.Prelude.{◌≡◌, ⊤, [], IsOk, OnOk};
ghost use Rattle.std.specs.Io.KnownBytes.{Appends, append_known};
ghost use Rattle.recording_lines.specs.WholeLines.{written_with};

use arrayvec::ArrayVec;
use report_writing::WriteLines;
use std::fmt::Display;
use std::io::{self, Write};

/// How many octets a line has at most. A path that the system takes has 4,095, and at most 259 stand beside it. A path
/// that it lists in such a folder has 256 more, and at most 81 stand beside that.
const LINE_ROOM: usize = 4608;

/// Writes each line to a writer in one piece, by one call, so that the lines of several threads stay whole. No line
/// needs memory: its room is in here. One that has no room, or that the writer doesn't take, is dropped.
#[derive(Drop)]
pub struct WholeLines<E: Write + Drop> {
    /// The line that has begun.
    line: ArrayVec<u8, LINE_ROOM>,
    pub(crate) out: E,
}

impl<E: Write + Drop> WholeLines<E> {
    /// Lines that are written to a writer.
    pub fn new(out: E) -> Self
        ensures { (⟦<WholeLines<E> as WriteLines>⟧.lines result).contents ≡ E.contents out }
    {
        WholeLines {
            line: ArrayVec::new(),
            out,
        }
    }

    // Writes the line, if it has ended, after what was added to it.
    fn end_line(&mut self, added: io::Result<()>) -> io::Result<()>
        ensures added { OnOk result (IsOk added) }
        ensures written { OnOk result (Appends
            (append_known (E.contents self.old.out) self.old.line.items)
            (⟦<WholeLines<E> as WriteLines>⟧.lines self.new).contents []) }
    {
        if added.is_ok() && !self.line.ends_with(b"\n") {
            return Ok(());
        }
        let written = match added {
            Ok(()) => self.out.write_all(self.line.as_slice()),
            Err(error) => Err(error),
        };
        self.line.clear();
        written
    }
}

impl<E: Write + Drop> WriteLines for WholeLines<E> {
    ghost lines = { λ w. record { contents = written_with (E.contents w.out) w.line.items; failed = ⊤ } };

    fn write_fmt<D: Display>(&mut self, text: D) -> io::Result<()>
    where
        D: Drop,
    {
        let added = Write::write_fmt(&mut self.line, text);
        self.end_line(added)
    }

    fn writeln<D: Display>(&mut self, text: D) -> io::Result<()>
    where
        D: Drop,
    {
        let added = Write::writeln(&mut self.line, text);
        self.end_line(added)
    }

    fn write_all(&mut self, octets: &[u8]) -> io::Result<()> {
        let added = Write::write_all(&mut self.line, octets);
        self.end_line(added)
    }
}
