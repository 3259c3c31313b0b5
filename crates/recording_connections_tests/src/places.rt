//! A place in memory for the sessions of connections.

use ipfix_session::ScriptSource;
use recording_connections::{
    Connection, ConnectionSource, NotAccepted, Recording, RecordingFiles, SessionPlace,
};
use recording_files::{FileReport, FileSeries, NotWritten, ScriptClock};
use recording_folder::FilesEnd;
use report_writing::Reason;
use std::alloc::{AllocError, Global};
use std::net::SocketAddr;

/// Files that have room for a number of octets, of which the last can be finished or not.
#[derive(Drop)]
pub struct SmallFiles {
    room: usize,
    is_finished: bool,
    failed: u64,
}

impl FileSeries for SmallFiles {
    ghost use Rattle.std.specs.Prelude.{None};

    ghost seen = { λ f. record { contents = None; failed = f.failed } };

    fn append(&mut self, octets: &[u8]) -> Result<(), NotWritten> {
        if octets.len() > self.room {
            self.failed = self.failed.saturating_add(1);
            return Err(NotWritten);
        }
        self.room -= octets.len();
        Ok(())
    }

    fn turn(&mut self, _report: &FileReport) -> Result<(), NotWritten> {
        Ok(())
    }
}

impl RecordingFiles for SmallFiles {
    ghost use Rattle.std.specs.Prelude.{⊤};

    ghost finishes = { λ _ _ _. ⊤ };

    fn finish(self, _last: &FileReport) -> FilesEnd {
        if self.is_finished {
            FilesEnd {
                finished: Ok(()),
                reason: Some(Reason::NoSpace),
            }
        } else {
            FilesEnd {
                finished: Err(NotWritten),
                reason: None,
            }
        }
    }
}

/// Gives each session files with this room, or has no memory for them.
#[derive(Clone, Copy)]
pub struct SmallPlace {
    pub has_memory: bool,
    pub room: usize,
    pub is_finished: bool,
}

impl SessionPlace<SmallFiles, ScriptClock> for SmallPlace {
    ghost use Rattle.std.specs.Prelude.{⊤};

    ghost makes = { λ _ _ _ _. ⊤ };

    fn session(
        &self,
        alloc: Global,
        _peer: SocketAddr,
        _number: u64,
    ) -> Result<Recording<SmallFiles, ScriptClock>, AllocError> {
        if !self.has_memory {
            return Err(AllocError);
        }
        Ok(Recording {
            files: SmallFiles {
                room: self.room,
                is_finished: self.is_finished,
                failed: 0,
            },
            clock: ScriptClock::new(Vec::new(alloc)),
        })
    }
}

/// Has no connections.
#[derive(Clone, Copy)]
pub struct NoConnections;

impl ConnectionSource<ScriptSource> for NoConnections {
    ghost gives = { λ _ _. ⊥ };

    fn next_connection(&self) -> Result<Connection<ScriptSource>, NotAccepted> {
        Err(NotAccepted)
    }
}
