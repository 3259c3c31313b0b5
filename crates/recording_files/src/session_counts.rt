//! The counts of a session that is recorded, and of its file that isn't finished.

ghost use Rattle.std.specs.Prelude.{◌≡◌, ◌↔◌, ◌++◌, ◌∷◌, [], OnOk, OnErr, IsTrue};
ghost use Rattle.recording_files.specs.Counting.{CountsWaiting};
ghost use Rattle.recording_files.specs.Recorders.{Counted, ForCounted};
ghost use Rattle.recording_files.specs.Sessions.{IsTold};

use crate::counting::count_all;
use crate::file_report::FileReport;
use crate::message_count::MessageCount;
use crate::record_fault::RecordFault;
use crate::recorded_session::RecordedSession;
use ipfix_session::Tally;
use std::alloc::{AllocError, Global};
use std::marker::Model;

/// The counts of a session and of its file that isn't finished, and what is to be counted for messages
/// that wait to be written.
#[derive(Drop)]
pub struct SessionCounts {
    tally: Tally,
    file: FileReport,
    waiting: Vec<MessageCount>,
}

impl Model for SessionCounts {
    ghost use Rattle.std.specs.Prelude.{vec_len};
    ghost use Rattle.ipfix_session.specs.Intake.{counts_of};
    ghost use Rattle.ipfix_session.specs.Rooms.{HasRoom};
    ghost use Rattle.recording_files.specs.Recorders.{CountsView};

    ghost Value = { CountsView };

    ghost view = { λ c. record {
      told = record { session = counts_of c.tally; file = c.file };
      waiting = c.waiting.items;
    } };

    ghost invariant = { λ c. HasRoom c.tally.ledger (vec_len c.waiting) };
}

impl SessionCounts {
    /// The counts of no messages.
    pub fn new(alloc: Global) -> Self
        ensures { Counted result.told [] [] }
    {
        SessionCounts {
            tally: Tally::new(alloc),
            file: FileReport::EMPTY,
            waiting: Vec::new(alloc),
        }
    }

    /// Nothing waits to be counted any more.
    pub fn clear_waiting(&mut self)
        ensures told { self.new.told ≡ self.old.told }
        ensures waiting { self.new.waiting ≡ [] }
    {
        self.waiting.clear();
    }

    /// Whether no message waits to be counted.
    pub fn is_settled(&self) -> bool
        ensures { IsTrue result ↔ (self.now.waiting ≡ []) }
    {
        self.waiting.is_empty()
    }

    /// A message waits to be written, and to be counted then.
    pub fn wait_for(&mut self, message: MessageCount) -> Result<(), AllocError>
        ensures told { self.new.told ≡ self.old.told }
        ensures waits { OnOk result (self.new.waiting ≡ self.old.waiting ++ message ∷ []) }
        ensures err { OnErr result (self.new.waiting ≡ self.old.waiting) }
    {
        let messages = self.waiting.len().checked_add(1);
        self.tally.ledger.make_room(messages.ok_or(AllocError)?)?;
        self.waiting.push(message)?;
        Ok(())
    }

    /// Counts the messages that waited to be written.
    pub fn count_waiting(&mut self)
        ensures { CountsWaiting self.old self.new }
    {
        count_all(&self.waiting, &mut self.tally, &mut self.file);
        self.waiting.clear();
    }

    /// Begins the next file.
    pub fn turn(&mut self)
        ensures told { ForCounted self.old.told
            (λ before here. Counted self.new.told (before ++ here) []) }
        ensures waiting { self.new.waiting ≡ self.old.waiting }
    {
        self.file = FileReport::EMPTY;
    }

    /// The report of the file that isn't finished.
    pub fn file_report(&self) -> FileReport
        ensures { result ≡ self.now.told.file }
    {
        self.file
    }

    /// What is told of the session, which ended so. This takes no memory.
    pub fn into_session(self, ended: Result<(), RecordFault>) -> RecordedSession
        ensures told { ForCounted self.told (IsTold result) }
        ensures ended { result.ended ≡ ended }
    {
        let SessionCounts {
            tally,
            file,
            waiting: _,
        } = self;
        let fault = match &ended {
            Ok(()) => None,
            Err(fault) => Some(fault.of_session()),
        };
        RecordedSession {
            report: tally.into_report(fault, None),
            last: file,
            ended,
        }
    }
}
