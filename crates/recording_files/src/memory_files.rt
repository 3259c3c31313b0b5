//! Files in memory, for tests.

ghost use Rattle.std.specs.Prelude.{◌≡◌, Some, map};
ghost use Rattle.recording_files.specs.Files.{no_files};

use crate::file_report::FileReport;
use crate::file_series::{FileSeries, NotWritten};
use std::alloc::Global;
use std::mem;

/// Files in memory. They have room for a number of octets in all: what goes beyond it is not written.
#[derive(Drop)]
pub struct MemoryFiles {
    /// The octets of the finished files, in order.
    pub finished: Vec<Vec<u8>>,
    /// What was reported of each of them.
    pub reports: Vec<FileReport>,
    /// The octets of the file that isn't finished.
    pub unfinished: Vec<u8>,
    /// How many calls failed; it stops at `u64::MAX`.
    pub failed: u64,
    room: usize,
    alloc: Global,
}

impl MemoryFiles {
    /// No finished files, an empty one, and room for `room` octets.
    pub fn new(alloc: Global, room: usize) -> Self
        ensures { ⟦<MemoryFiles as FileSeries>⟧.seen result ≡ no_files }
    {
        MemoryFiles {
            finished: Vec::new(alloc),
            reports: Vec::new(alloc),
            unfinished: Vec::new(alloc),
            failed: 0,
            room,
            alloc,
        }
    }
}

impl FileSeries for MemoryFiles {
    ghost seen = { λ f. record {
      contents = Some (record {
        finished = map (λ v. v.items) f.finished.items;
        reports = f.reports.items;
        unfinished = f.unfinished.items;
      });
      failed = f.failed;
    } };

    fn append(&mut self, octets: &[u8]) -> Result<(), NotWritten> {
        let count = octets.len().min(self.room);
        if self.unfinished.extend_from_slice(&octets[..count]).is_err() {
            self.failed = self.failed.saturating_add(1);
            return Err(NotWritten);
        }
        self.room -= count;
        if count < octets.len() {
            self.failed = self.failed.saturating_add(1);
            return Err(NotWritten);
        }
        Ok(())
    }

    fn turn(&mut self, report: &FileReport) -> Result<(), NotWritten> {
        if self.finished.reserve(1).is_err() || self.reports.reserve(1).is_err() {
            self.failed = self.failed.saturating_add(1);
            return Err(NotWritten);
        }
        let next = Vec::new(self.alloc);
        let file = mem::replace(&mut self.unfinished, next);
        self.finished.push_reserved(file);
        self.reports.push_reserved(*report);
        Ok(())
    }
}
