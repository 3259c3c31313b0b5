//! The files of a session, as far as they were acknowledged.

use recording_files::{FileReport, FileSeries, NotWritten};
use std::alloc::{AllocError, Global};

/// The octets of a session's files, as far as they were acknowledged.
#[derive(Drop)]
pub struct KeptFiles {
    pub files: Vec<Vec<u8>>,
    /// Whether the next octets begin a file.
    is_between: bool,
    alloc: Global,
}

impl KeptFiles {
    pub fn new(alloc: Global) -> Self {
        KeptFiles {
            files: Vec::new(alloc),
            is_between: true,
            alloc,
        }
    }

    /// Appends octets to the files of a session, and keeps them where that is acknowledged.
    pub fn append<F: FileSeries>(
        &mut self,
        files: &mut F,
        octets: &[u8],
    ) -> Result<(), NotWritten> {
        files.append(octets)?;
        match self.keep(octets) {
            Ok(()) => Ok(()),
            Err(_) => Err(NotWritten),
        }
    }

    /// Finishes the file of a session, and begins the next.
    pub fn turn<F: FileSeries>(&mut self, files: &mut F) -> Result<(), NotWritten> {
        files.turn(&FileReport::EMPTY)?;
        self.is_between = true;
        Ok(())
    }

    /// Keeps octets at the end of the file.
    pub fn keep(&mut self, octets: &[u8]) -> Result<(), AllocError> {
        if self.is_between {
            self.files.push(Vec::new(self.alloc))?;
            self.is_between = false;
        }
        match self.files.last_mut() {
            Some(file) => file.extend_from_slice(octets),
            None => Ok(()),
        }
    }

    /// Keeps a file.
    pub fn keep_file(&mut self, octets: &[u8]) -> Result<(), AllocError> {
        self.is_between = true;
        self.keep(octets)?;
        self.is_between = true;
        Ok(())
    }
}
