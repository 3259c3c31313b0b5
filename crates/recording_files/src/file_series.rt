//! Where the files of a session are.

use crate::file_report::FileReport;
use thiserror::Error;

/// A file was not written, or not finished.
#[derive(Clone, Copy, Debug, PartialEq, Eq, Error)]
#[error("a file could not be written")]
pub struct NotWritten;

/// The files of a session, one after another (RFC 5655). All but the last are finished. Its count stops
/// at `u64::MAX`.
pub trait FileSeries {
    ghost use Rattle.recording_files.specs.Files.{FilesView, Appends, Turns};

    /// What contracts see of it: the octets and the reports of the finished files in order and the octets
    /// of the file that isn't finished, if it shows them, and how many calls failed.
    ghost seen: { Self → FilesView };

    /// Appends octets to the file that isn't finished; they are written when the call returns. After an
    /// `Err` the first of them may stand there.
    fn append(&mut self, octets: &[u8]) -> Result<(), NotWritten>
        ensures { Appends result octets.now (seen self.old) (seen self.new) };

    /// Finishes that file, of which this is the report, and begins the next. After an `Err` this may have
    /// been done or not.
    fn turn(&mut self, report: &FileReport) -> Result<(), NotWritten>
        ensures { Turns result report.now (seen self.old) (seen self.new) };
}
