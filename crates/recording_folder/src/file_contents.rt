//! What a file has, read by itself as a session (RFC 7011, section 3.1; RFC 5655, section 6).

ghost use Rattle.std.specs.Prelude.{◌≡◌, ◌<◌, ℕ, List, length, Some, IfOk};
ghost use Rattle.recording_folder.specs.FileContents.{AreContents};

use crate::file_reading::FileReading;
use ipfix_session::READ_SIZE;
use recording_files::FileReport;
use recording_resumption::EarlierSession;
use std::alloc::Global;
use std::io::{self, ErrorKind, Read};

/// What a file has, read by itself as a session. The numbers stop at `u64::MAX`.
#[derive(Drop)]
pub struct FileContents {
    /// How many of its octets are whole messages, one after another from its front.
    pub whole: u64,
    /// What its messages give, up to the first that has a fault. The recorder's own are counted, too: options records that are
    /// said again, preambles, withdrawals, and templates that are defined again.
    pub report: FileReport,
    /// What a session that goes on needs: the templates that are in force at its end, and the last message of each domain.
    pub session: EarlierSession,
}

/// Reads a file to its end, once. It holds at most a message and a piece. An `Err` is the reader's, or memory that
/// couldn't be had.
pub fn read_contents<R: Read>(alloc: Global, reader: &mut R) -> io::Result<FileContents>
    ensures { (text : List ℕ) → R.remaining reader.old ≡ Some text → IfOk result (AreContents text) }
{
    let mut piece = vec![in alloc; 0; READ_SIZE]?;
    read_through(alloc, reader, &mut piece)
}

// Does the same through this buffer.
fn read_through<R: Read>(
    alloc: Global,
    reader: &mut R,
    piece: &mut [u8],
) -> io::Result<FileContents>
    requires { 0 < length piece.old }
    ensures { (text : List ℕ) → R.remaining reader.old ≡ Some text → IfOk result (AreContents text) }
{
    let mut reading = FileReading::new(alloc);
    for _ in 0..u64::MAX {
        match reader.read(piece) {
            Ok(0) => return Ok(reading.into_contents()),
            Ok(count) => reading.take(alloc, &piece[..count])?,
            Err(error) if error.kind() == ErrorKind::Interrupted => continue,
            Err(error) => return Err(error),
        }
    }
    Err(io::Error::from(ErrorKind::Interrupted))
}
