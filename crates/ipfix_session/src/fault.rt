//! Why a session ended early.

ghost use Rattle.std.specs.Prelude.{◌≡◌};
ghost use Rattle.ipfix_message.specs.declared.fault.MessageFault.TheVariants.{OutOfMemory};
ghost use Rattle.ipfix_session.specs.declared.fault.SessionFault.TheVariants.{Message};
ghost use Rattle.ipfix_session.specs.Faults.{ends_open as is_end_open, number_of, name_of};

use ipfix_message::MessageFault;
use std::alloc::{AllocError, AllocFailed};
use thiserror::Error;

/// Why a session ended before the end of its octets.
#[derive(Clone, Copy, Debug, PartialEq, Eq, Error)]
pub enum SessionFault {
    /// A message was refused, or memory ran out.
    #[error("{0}")]
    Message(MessageFault),
    /// The octets end within a message.
    #[error("the last message is cut")]
    Truncated,
    /// A read failed.
    #[error("a read failed")]
    ReadFailed,
    /// The reads that were allowed didn't show the end.
    #[error("too many reads")]
    TooManyReads,
    /// The sink gave a record back.
    #[error("the sink takes no more records")]
    SinkClosed,
}

impl SessionFault {
    /// The number that reports give for the fault. A message's fault has its own.
    pub fn number(&self) -> u8
        ensures { result ≡ number_of self.now }
    {
        match self {
            SessionFault::Message(fault) => fault.number(),
            SessionFault::Truncated => 14,
            SessionFault::ReadFailed => 15,
            SessionFault::TooManyReads => 17,
            SessionFault::SinkClosed => 18,
        }
    }

    /// The name that reports give for the fault. A message's fault has its own.
    pub fn name(&self) -> &'static str
        ensures { result.now ≡ name_of self.now }
    {
        match self {
            SessionFault::Message(fault) => fault.name(),
            SessionFault::Truncated => "Truncated",
            SessionFault::ReadFailed => "ReadFailed",
            SessionFault::TooManyReads => "TooManyReads",
            SessionFault::SinkClosed => "SinkClosed",
        }
    }
}

/// Whether a session that ended so could have gone on: no message was refused, memory did not run out, and the
/// sink took each record.
pub fn ends_open(fault: Option<SessionFault>) -> bool
    ensures { result ≡ is_end_open fault }
{
    match fault {
        None => true,
        Some(SessionFault::Truncated | SessionFault::ReadFailed | SessionFault::TooManyReads) => {
            true
        }
        Some(SessionFault::Message(_) | SessionFault::SinkClosed) => false,
    }
}

impl From<MessageFault> for SessionFault {
    ghost from_gives = { λ m e. e ≡ Message m };

    fn from(fault: MessageFault) -> SessionFault {
        SessionFault::Message(fault)
    }
}

impl From<AllocError> for SessionFault {
    ghost from_gives = { λ _ e. e ≡ Message OutOfMemory };

    fn from(_e: AllocError) -> SessionFault {
        SessionFault::Message(MessageFault::OutOfMemory)
    }
}

impl<T: Drop> From<AllocFailed<T>> for SessionFault {
    ghost from_gives = { λ _ e. e ≡ Message OutOfMemory };

    fn from(_e: AllocFailed<T>) -> SessionFault {
        SessionFault::Message(MessageFault::OutOfMemory)
    }
}
