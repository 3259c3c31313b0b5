//! Where the sessions of connections are recorded.

use recording_files::{FileReport, FileSeries, PeriodClock};
use recording_folder::FilesEnd;
use std::alloc::{AllocError, Global};
use std::net::SocketAddr;

/// The files of a session, of which the last can be finished, too.
pub trait RecordingFiles: FileSeries {
    ghost use Rattle.recording_files.specs.declared.file_report.FileReport.{FileReport};
    ghost use Rattle.recording_folder.specs.declared.session_files.FilesEnd.{FilesEnd};

    /// Whether finishing the last file, of which this is the report, may answer so.
    ghost finishes: { Self → FileReport → FilesEnd → Type 0 };

    /// Finishes the file that isn't finished yet, of which this is the report, and answers how the files ended. It goes away
    /// if it is empty.
    fn finish(self, last: &FileReport) -> FilesEnd
        ensures { finishes self last.now result };
}

/// The files of a session, and the clock that tells when each is finished.
#[derive(Drop)]
pub struct Recording<F, C> {
    pub files: F,
    pub clock: C,
}

/// Makes the files and the clock of each session, for several threads.
pub trait SessionPlace<F: RecordingFiles, C: PeriodClock> {
    ghost use Rattle.std.specs.Prelude.{ℕ, IfOk, Result};
    ghost use Rattle.std.specs.declared.alloc.AllocError.{AllocError};
    ghost use Rattle.std.specs.declared.net.socket_addr.SocketAddr.{SocketAddr};
    ghost use Rattle.recording_files.specs.Files.{IsEmpty};
    ghost use Rattle.recording_connections.specs.declared.place.Recording.{Recording};

    /// Whether it may answer so for the session of this peer and this number.
    ghost makes: { Self → SocketAddr → ℕ → Result (Recording F C) AllocError → Type 0 };

    /// The files and the clock of the session of this peer and this number; nothing stands in the files. Only memory
    /// can be refused.
    fn session(
        &self,
        alloc: Global,
        peer: SocketAddr,
        number: u64,
    ) -> Result<Recording<F, C>, AllocError>
        ensures made { makes self.now peer number result }
        ensures empty { IfOk result (λ r. IsEmpty (F.seen r.files).contents) };
}
