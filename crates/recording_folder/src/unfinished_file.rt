//! A file that isn't finished.

ghost use Rattle.std.specs.Prelude.{◌≡◌, ◌↔◌, ◌+◌, false, length, IsTrue, OnErr, OnOk, Some};
ghost use Rattle.ipfix_session.specs.Ledger.{capped};

use crate::filed_session::FiledSession;
use recording_names::Period;
use std::fs::OpenFile;
use std::io::{self, ErrorKind, Write};
use std::sync::Arc;

/// A file that isn't finished, in the folder of those.
#[derive(Drop)]
pub(crate) struct UnfinishedFile<F> {
    /// It is open as long as its octets aren't on the disk.
    file: Option<F>,
    pub(crate) path: String,
    pub(crate) period: Period,
    pub(crate) session: Arc<FiledSession>,
    /// The octets of the calls that wrote all of theirs.
    length: u64,
    /// Whether some of a call that failed may follow them.
    is_torn: bool,
}

impl<F: Write + OpenFile + Drop> UnfinishedFile<F> {
    // A file that was made, and in which nothing stands.
    pub(crate) fn new(file: F, path: String, period: Period, session: Arc<FiledSession>) -> Self
        ensures file { result.file ≡ Some file }
        ensures path { result.path ≡ path }
        ensures period { result.period ≡ period }
        ensures session { result.session ≡ session }
        ensures empty { result.length ≡ 0 }
        ensures whole { result.is_torn ≡ false }
    {
        UnfinishedFile {
            file: Some(file),
            path,
            period,
            session,
            length: 0,
            is_torn: false,
        }
    }

    // Whether nothing was written.
    pub(crate) fn is_empty(&self) -> bool
        ensures { IsTrue result ↔ (self.now.length ≡ 0) }
    {
        self.length == 0
    }

    // Writes octets at its end. Where not all are written, it is cut back if it can be.
    pub(crate) fn append(&mut self, octets: &[u8]) -> io::Result<()>
        ensures ok { OnOk result (self.new.length ≡ capped (self.old.length + length octets.now)) }
        ensures err { OnErr result (self.new.length ≡ self.old.length) }
        ensures path { self.new.path ≡ self.old.path }
        ensures period { self.new.period ≡ self.old.period }
        ensures session { self.new.session ≡ self.old.session }
    {
        self.mend()?;
        let Some(file) = &mut self.file else {
            return Err(io::Error::from(ErrorKind::InvalidInput));
        };
        let written = file.write_all(octets);
        if written.is_ok() {
            self.length = self.length.saturating_add(octets.len() as u64);
        } else {
            self.is_torn = true;
            let _ = self.mend();
        }
        written
    }

    // Brings its octets to the disk, and no others, and closes it.
    pub(crate) fn close(&mut self) -> io::Result<()>
        ensures { self.new ≡ record self.old { file = self.new.file; is_torn = self.new.is_torn } }
    {
        self.mend()?;
        if let Some(file) = &self.file {
            file.sync_all()?;
        }
        self.file = None;
        Ok(())
    }

    // Cuts off what a write that failed may have left.
    fn mend(&mut self) -> io::Result<()>
        ensures { self.new ≡ record self.old { is_torn = self.new.is_torn } }
    {
        match &self.file {
            Some(file) if self.is_torn => {
                file.set_len(self.length)?;
                self.is_torn = false;
                Ok(())
            }
            _ => Ok(()),
        }
    }
}
