//! Reading a file in pieces: where its whole messages end, and what they give.

ghost use Rattle.std.specs.Prelude.{◌++◌, ℕ, List, [], OnOk};
ghost use Rattle.recording_folder.specs.FileContents.{AreContents};
ghost use Rattle.recording_folder.specs.FileReadings.{HasReadFile};

use crate::file_contents::FileContents;
use crate::full_reports::report_of;
use ipfix_session::MessageCounter;
use recording_resumption::EarlierReading;
use std::alloc::{AllocError, Global};

/// A file of which some was read.
#[derive(Drop)]
pub(crate) struct FileReading {
    whole: MessageCounter,
    session: EarlierReading,
}

impl FileReading {
    /// Nothing was read yet.
    pub(crate) fn new(alloc: Global) -> Self
        ensures { HasReadFile [] result }
    {
        FileReading {
            whole: MessageCounter::new(),
            session: EarlierReading::new(alloc),
        }
    }

    /// Reads on. An `Err` is memory that couldn't be had.
    pub(crate) fn take(&mut self, alloc: Global, piece: &[u8]) -> Result<(), AllocError>
        ensures { (text : List ℕ) → HasReadFile text self.old
            → OnOk result (HasReadFile (text ++ piece.now) self.new) }
    {
        self.whole.read(piece);
        self.session.read(alloc, piece)
    }

    /// What the file has that ends here.
    pub(crate) fn into_contents(self) -> FileContents
        ensures { (text : List ℕ) → HasReadFile text self → AreContents text result }
    {
        let session = self.session.finish();
        FileContents {
            whole: self.whole.octets(),
            report: report_of(&session.full),
            session,
        }
    }
}
