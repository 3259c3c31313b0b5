//! The faults that end a session, also one that is recorded, or for which a datagram is refused.

ghost use Rattle.std.specs.Prelude.{◌≡◌};
ghost use Rattle.command_explain.specs.EndingFaults.{number_of, name_of};

use ipfix_session::SessionFault;
use recording_files::RecordFault;

/// A fault that ends a session, or for which a datagram is refused.
#[derive(Clone, Copy, Debug, PartialEq, Eq)]
pub enum EndingFault {
    /// One that any session may have, or for which a datagram is refused.
    Session(SessionFault),
    /// A file of a recorded session could not be written, or not be finished.
    NotWritten,
}

impl EndingFault {
    /// Its number, which no other of them has.
    pub fn number(&self) -> u8
        ensures { result ≡ number_of self.now }
    {
        match self {
            EndingFault::Session(fault) => fault.number(),
            EndingFault::NotWritten => RecordFault::NotWritten.number(),
        }
    }

    /// Its name.
    pub fn name(&self) -> &'static str
        ensures { result.now ≡ name_of self.now }
    {
        match self {
            EndingFault::Session(fault) => fault.name(),
            EndingFault::NotWritten => RecordFault::NotWritten.name(),
        }
    }
}
