//! A writer that fails.

use std::alloc::Global;
use std::io::{self, ErrorKind, Write};

/// Takes at most `piece` octets a write, and fails at the call after the first `calls` of `write` and
/// `flush`, and at each one from then on. What it took stays in `taken`.
#[derive(Drop)]
pub struct FailingWriter {
    pub taken: Vec<u8>,
    pub piece: usize,
    pub calls: u64,
}

impl FailingWriter {
    pub fn new(alloc: Global, piece: usize, calls: u64) -> FailingWriter {
        FailingWriter {
            taken: Vec::new(alloc),
            piece,
            calls,
        }
    }

    fn count_call(&mut self) -> io::Result<()> {
        let Some(left) = self.calls.checked_sub(1) else {
            return Err(io::Error::from(ErrorKind::StorageFull));
        };
        self.calls = left;
        Ok(())
    }
}

impl Write for FailingWriter {
    fn write(&mut self, octets: &[u8]) -> io::Result<usize> {
        self.count_call()?;
        let count = octets.len().min(self.piece);
        self.taken.extend_from_slice(&octets[..count])?;
        Ok(count)
    }

    fn flush(&mut self) -> io::Result<()> {
        self.count_call()
    }
}
