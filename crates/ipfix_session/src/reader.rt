//! Any reader as a source.

ghost use Rattle.std.specs.Prelude.{◌≡◌, ◌≢◌, ◌↔◌, ◌<◌, [], true, false, None, Some, IfSome, IsSome};
ghost use Rattle.std.specs.Option.{ForSome};
ghost use Rattle.ipfix_session.specs.Sources.{unread};

use crate::source::{ReadError, Source};
use std::io::{ErrorKind, Read};

/// A source over a reader. Once it has shown its end it doesn't ask the reader again.
#[derive(Drop)]
pub struct FromReader<R: Read> {
    reader: R,
    reads: u64,
    failed: u64,
    failure: Option<ErrorKind>,
    ended: bool,
    ghost counted: { (IsSome failure) ↔ (0 < failed) },
    ghost behind_the_end: { ended ≡ true → ForSome (R.remaining reader) (λ xs. xs ≡ []) },
}

impl<R: Read> FromReader<R> {
    pub fn new(reader: R) -> Self
        ensures unread { ⟦<FromReader<R> as Source>⟧.seen result ≡ unread (R.remaining reader) }
        ensures unfailed { result.failure ≡ None }
    {
        FromReader {
            reader,
            reads: 0,
            failed: 0,
            failure: None,
            ended: false,
        }
    }
}

// An interruption may be tried again, and any other error is a failure.
fn read_error(kind: ErrorKind) -> ReadError
    ensures { (result ≡ ReadError.Interrupted) ↔ (kind ≡ ErrorKind.Interrupted) }
{
    match kind {
        ErrorKind::Interrupted => ReadError::Interrupted,
        _ => ReadError::Failed,
    }
}

impl<R: Read> Source for FromReader<R> {
    ghost use Rattle.ipfix_session.specs.Sources.{IsRead};
    ghost use Rattle.ipfix_session.specs.Readers.{failure_of, reader_of};

    ghost seen = { λ s. record {
      text = R.remaining s.reader;
      reads = s.reads;
      failed = s.failed;
      ended = s.ended;
    } };

    ghost failure = { failure_of };

    ghost ended_is_end = { λ s e. s.behind_the_end e };

    fn read(&mut self, buffer: &mut [u8]) -> Result<usize, ReadError>
        ensures is_read { IsRead (⟦<FromReader<R> as Source>⟧.seen self.old) result
            (⟦<FromReader<R> as Source>⟧.seen self.new) buffer.new }
        // After its end the reader isn't asked.
        ensures not_asked { self.old.ended ≡ true
            → reader_of self.new ≡ reader_of self.old }
        // A read that fails leaves what the reader answered to it, and no other read changes it.
        ensures failure { result ≡ Err ReadError.Failed → IsSome (failure_of self.new) }
        ensures same { result ≢ Err ReadError.Failed → failure_of self.new ≡ failure_of self.old }
    {
        self.reads = self.reads.saturating_add(1);
        if self.ended {
            return Ok(0);
        }
        match self.reader.read(buffer) {
            Ok(count) => {
                self.ended = count == 0 && !buffer.is_empty();
                Ok(count)
            }
            Err(error) => {
                let kind = error.kind();
                let error = read_error(kind);
                if error == ReadError::Failed {
                    self.failed = self.failed.saturating_add(1);
                    self.failure = Some(kind);
                }
                Err(error)
            }
        }
    }

    fn failure(&self) -> Option<ErrorKind>
        ensures known { IfSome result (λ kind. failure_of self.now ≡ Some kind) }
        ensures same { result ≡ failure_of self.now }
        // There is one exactly if a read failed.
        ensures failed { (IsSome result) ↔ (0 < (⟦<FromReader<R> as Source>⟧.seen self.now).failed) }
    {
        self.failure
    }
}
