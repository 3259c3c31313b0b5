//! Why the system did not take octets, kept by what gives them to it.

ghost use Rattle.std.specs.Prelude.{◌≡◌};

use report_writing::Reason;
use std::io::{self, ErrorKind, Write};
use std::marker::Model;

/// A writer that keeps why a call of it failed. Contracts see the writer alone.
#[derive(Drop)]
pub struct WithReason<W: Write> {
    writer: W,
    reason: Option<Reason>,
}

impl<W: Write> Model for WithReason<W> {
    ghost Value = { W };

    ghost view = { λ w. w.writer };
}

impl<W: Write> WithReason<W> {
    /// Over a writer, of which no call has failed.
    pub fn new(writer: W) -> Self
        ensures { result ≡ writer }
    {
        WithReason {
            writer,
            reason: None,
        }
    }

    /// Why the first call failed that did, if one did. One that was interrupted is tried again, and doesn't count.
    pub fn reason(&self) -> Option<Reason> {
        self.reason
    }

    // Keeps why a call failed, if it is the first that did.
    fn keep<V>(&mut self, answer: &io::Result<V>)
        ensures { self.new ≡ self.old }
    {
        if let (Err(error), None) = (answer, self.reason)
            && error.kind() != ErrorKind::Interrupted
        {
            self.reason = Some(Reason::of(error));
        }
    }
}

impl<W: Write> Write for WithReason<W> {
    ghost contents = { W.contents };

    fn write(&mut self, octets: &[u8]) -> io::Result<usize> {
        let answer = self.writer.write(octets);
        self.keep(&answer);
        answer
    }

    fn flush(&mut self) -> io::Result<()> {
        let answer = self.writer.flush();
        self.keep(&answer);
        answer
    }
}
