//! A place with little room.

use recording_connections::RecordingFiles;
use recording_files::{FileReport, FileSeries, NotWritten, PeriodClock, ScriptClock};
use recording_folder::FilesEnd;
use recording_peers::PeerPlace;
use recording_resumption::EarlierDomains;
use std::alloc::{AllocError, Global};
use std::collections::BTreeMap;
use std::net::SocketAddr;

/// Files that have room for a number of octets, and keep what was written.
#[derive(Drop)]
pub struct SmallFiles {
    pub room: usize,
    pub written: Vec<u8>,
    failed: u64,
}

impl FileSeries for SmallFiles {
    ghost use Rattle.std.specs.Prelude.{None};

    ghost seen = { λ f. record { contents = None; failed = f.failed } };

    fn append(&mut self, octets: &[u8]) -> Result<(), NotWritten> {
        if octets.len() > self.room || self.written.extend_from_slice(octets).is_err() {
            self.failed = self.failed.saturating_add(1);
            return Err(NotWritten);
        }
        self.room -= octets.len();
        Ok(())
    }

    fn turn(&mut self, _report: &FileReport) -> Result<(), NotWritten> {
        Ok(())
    }
}

impl RecordingFiles for SmallFiles {
    ghost use Rattle.std.specs.Prelude.{⊤};

    ghost finishes = { λ _ _ _. ⊤ };

    fn finish(self, _last: &FileReport) -> FilesEnd {
        FilesEnd {
            finished: Ok(()),
            reason: None,
        }
    }
}

/// Gives each peer files with this room.
#[derive(Clone, Copy)]
pub struct SmallPlace {
    pub room: usize,
}

impl PeerPlace<SmallFiles> for SmallPlace {
    ghost use Rattle.std.specs.Prelude.{⊤};

    ghost made_for = { λ _ _. ⊤ };

    fn files(&mut self, alloc: Global, _peer: SocketAddr) -> Result<SmallFiles, AllocError> {
        Ok(SmallFiles {
            room: self.room,
            written: Vec::new(alloc),
            failed: 0,
        })
    }

    fn earlier(&mut self, alloc: Global, _peer: SocketAddr) -> EarlierDomains {
        BTreeMap::new(alloc)
    }

    fn is_busy(&self) -> bool {
        false
    }

    fn give_back(&mut self, _alloc: Global, _peer: SocketAddr, _earlier: EarlierDomains) {}
}

/// The same in the periods of a script.
#[derive(Drop)]
pub struct PlaceInPeriods {
    pub place: SmallPlace,
    pub clock: ScriptClock,
}

impl PeerPlace<SmallFiles> for PlaceInPeriods {
    ghost use Rattle.std.specs.Prelude.{⊤};

    ghost made_for = { λ _ _. ⊤ };

    fn files(&mut self, alloc: Global, peer: SocketAddr) -> Result<SmallFiles, AllocError> {
        self.place.files(alloc, peer)
    }

    fn earlier(&mut self, alloc: Global, peer: SocketAddr) -> EarlierDomains {
        self.place.earlier(alloc, peer)
    }

    fn is_busy(&self) -> bool {
        self.place.is_busy()
    }

    fn give_back(&mut self, alloc: Global, peer: SocketAddr, earlier: EarlierDomains) {
        self.place.give_back(alloc, peer, earlier);
    }
}

impl PeriodClock for PlaceInPeriods {
    ghost asked = { λ p. ⟦<ScriptClock as PeriodClock>⟧.asked p.clock };

    fn is_over(&mut self) -> bool {
        self.clock.is_over()
    }
}
