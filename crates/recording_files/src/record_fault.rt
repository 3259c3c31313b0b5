//! Why a recording ended early.

ghost use Rattle.std.specs.Prelude.{◌≡◌, Some, Err};
ghost use Rattle.ipfix_message.specs.declared.fault.MessageFault.TheVariants.{OutOfMemory};
ghost use Rattle.recording_files.specs.declared.record_fault.RecordFault.TheVariants.{Message};
ghost use Rattle.recording_files.specs.declared.record_fault.RecordFault.TheVariants as faults;
ghost use Rattle.recording_files.specs.Faults.{number_of, name_of};
ghost use Rattle.recording_files.specs.Sessions.{fault_of};

use crate::file_series::NotWritten;
use ipfix_message::MessageFault;
use ipfix_session::SessionFault;
use std::alloc::AllocError;
use thiserror::Error;

/// Why a recording ended before the end of its octets.
#[derive(Clone, Copy, Debug, PartialEq, Eq, Error)]
pub enum RecordFault {
    /// A message was refused, or memory ran out.
    #[error("{0}")]
    Message(MessageFault),
    /// The octets end within a message.
    #[error("the last message is cut")]
    Truncated,
    /// A read failed.
    #[error("a read failed")]
    ReadFailed,
    /// The reads that were allowed didn't show the end.
    #[error("too many reads")]
    TooManyReads,
    /// A file could not be written, or not be finished.
    #[error("a file could not be written")]
    NotWritten,
}

impl RecordFault {
    /// The number that reports give for the fault. The faults that sessions have keep their numbers.
    pub fn number(&self) -> u8
        ensures { result ≡ number_of self.now }
    {
        match self {
            RecordFault::NotWritten => 19,
            fault => fault.of_session().number(),
        }
    }

    /// The name that reports give for the fault. The faults that sessions have keep their names.
    pub fn name(&self) -> &'static str
        ensures { result.now ≡ name_of self.now }
    {
        match self {
            RecordFault::NotWritten => "NotWritten",
            fault => fault.of_session().name(),
        }
    }

    /// The fault as a session's: files that take no more are a sink that takes no more.
    pub fn of_session(&self) -> SessionFault
        ensures { Some result ≡ fault_of (Err self.now) }
    {
        match self {
            RecordFault::Message(fault) => SessionFault::Message(*fault),
            RecordFault::Truncated => SessionFault::Truncated,
            RecordFault::ReadFailed => SessionFault::ReadFailed,
            RecordFault::TooManyReads => SessionFault::TooManyReads,
            RecordFault::NotWritten => SessionFault::SinkClosed,
        }
    }
}

impl From<MessageFault> for RecordFault {
    ghost from_gives = { λ m e. e ≡ Message m };

    fn from(fault: MessageFault) -> RecordFault {
        RecordFault::Message(fault)
    }
}

impl From<SessionFault> for RecordFault {
    ghost from_gives = { λ m e. fault_of (Err e) ≡ Some m };

    fn from(fault: SessionFault) -> RecordFault {
        match fault {
            SessionFault::Message(fault) => RecordFault::Message(fault),
            SessionFault::Truncated => RecordFault::Truncated,
            SessionFault::ReadFailed => RecordFault::ReadFailed,
            SessionFault::TooManyReads => RecordFault::TooManyReads,
            SessionFault::SinkClosed => RecordFault::NotWritten,
        }
    }
}

impl From<NotWritten> for RecordFault {
    ghost from_gives = { λ _ e. e ≡ faults.NotWritten };

    fn from(_e: NotWritten) -> RecordFault {
        RecordFault::NotWritten
    }
}

impl From<AllocError> for RecordFault {
    ghost from_gives = { λ _ e. e ≡ Message OutOfMemory };

    fn from(_e: AllocError) -> RecordFault {
        RecordFault::Message(MessageFault::OutOfMemory)
    }
}
