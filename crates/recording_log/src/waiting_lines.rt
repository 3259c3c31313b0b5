//! Lines that wait to be written.

ghost use Rattle.std.specs.Prelude.{◌≡◌, ◌≤◌, ◌↔◌, IfOk, IsTrue, vec_capacity};
ghost use Rattle.report_writing.specs.Lines.{Adds};
ghost use Rattle.report_writing.specs.Writing.{Tells};
ghost use Rattle.recording_log.specs.Logs.{dropped_line, dropped_lines, has_room, log_text, nothing_waits, pushed};
ghost use Rattle.recording_log.specs.declared.waiting_lines.TheConstants.{MOST_OCTETS};

use report_writing::WriteLines;
use std::alloc::{AllocError, Global};
use std::io;
use std::marker::Model;

/// How many lines wait at most.
pub const MOST_LINES: usize = 1024;

/// How many octets they have together at most. The memory for them is taken at the start.
pub const MOST_OCTETS: usize = 1_048_576;

/// Lines that wait to be written. Once one had no room, those after it are dropped, too, until the lines are written: so
/// what is written says exactly where lines are missing, and how many.
#[derive(Drop)]
pub struct WaitingLines {
    text: Vec<u8>,
    lines: usize,
    dropped: u64,
    ghost room: { MOST_OCTETS ≤ vec_capacity text },
}

impl Model for WaitingLines {
    ghost use Rattle.recording_log.specs.Logs.{LogView};

    ghost Value = { LogView };

    ghost view = { λ w. record { text = w.text.items; lines = w.lines; dropped = w.dropped } };
}

impl WaitingLines {
    /// No line, and room for as many as can wait.
    pub fn new(alloc: Global) -> Result<Self, AllocError>
        ensures { IfOk result (λ log. log ≡ nothing_waits) }
    {
        let text = Vec::with_capacity(alloc, MOST_OCTETS)?;
        Ok(WaitingLines {
            text,
            lines: 0,
            dropped: 0,
        })
    }

    /// Whether there is nothing to write.
    pub fn is_empty(&self) -> bool
        ensures { IsTrue result ↔ (self.now ≡ nothing_waits) }
    {
        self.lines == 0 && self.text.is_empty() && self.dropped == 0
    }

    /// Adds a line, or counts it as dropped if it has no room. The count stops at `u64::MAX`.
    pub fn push(&mut self, line: &[u8])
        ensures { self.new ≡ pushed self.old line.now }
    {
        if self.has_room(line) && self.text.extend_from_slice(line).is_ok() {
            self.lines += 1;
        } else {
            self.dropped = self.dropped.saturating_add(1);
        }
    }

    // Whether a line has room.
    fn has_room(&self, line: &[u8]) -> bool
        ensures { result ≡ has_room self.now line.now }
    {
        let octets = line.len();
        self.dropped == 0
            && self.lines < MOST_LINES
            && octets <= MOST_OCTETS
            && self.text.len() <= MOST_OCTETS - octets
    }

    /// Writes the lines that wait, and then how many were dropped, if any were.
    pub fn write<W: WriteLines>(&self, out: &mut W) -> io::Result<()>
        ensures { Tells W.lines out.old out.new result (log_text self.now) }
    {
        out.write_all(self.text.as_slice())?;
        write_dropped(self.dropped, out)
    }

    /// Forgets the lines, and how many were dropped.
    pub fn clear(&mut self)
        ensures { self.new ≡ nothing_waits }
    {
        self.text.clear();
        self.lines = 0;
        self.dropped = 0;
    }
}

// Writes how many lines were dropped, if any were.
fn write_dropped<W: WriteLines>(dropped: u64, out: &mut W) -> io::Result<()>
    ensures { Tells W.lines out.old out.new result (dropped_lines dropped) }
{
    if dropped == 0 {
        return Ok(());
    }
    write_dropped_line(dropped, out)
}

#[tactic(auto, unfolding(crate::specs::Logs::dropped_line))]
fn write_dropped_line<W: WriteLines>(dropped: u64, out: &mut W) -> io::Result<()>
    ensures { Tells W.lines out.old out.new result (dropped_line dropped) }
{
    writeln!(out, "collectd: lines dropped: {dropped}")
}
