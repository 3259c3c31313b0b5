//! Reading a file of an earlier run in pieces.

ghost use Rattle.std.specs.Prelude.{◌≡◌, ◌↔◌, ◌++◌, [], Some, None, Err, IsTrue, OnOk, if◌then◌else◌};
ghost use Rattle.ipfix_message.specs.declared.fault.MessageFault.TheVariants.{OutOfMemory};
ghost use Rattle.ipfix_session.specs.declared.fault.SessionFault.TheVariants.{Message};
ghost use Rattle.ipfix_session.specs.Faults.{ends_open};
ghost use Rattle.ipfix_session.specs.Reports.{ended_by};
ghost use Rattle.recording_resumption.specs.EarlierFiles.{IsEarlierSession};
ghost use Rattle.recording_resumption.specs.Readings.{ForTextRead, HasReadSession};

use crate::earlier_session::EarlierSession;
use crate::file_messages::FileMessages;
use ipfix_message::{Domains, MessageFault};
use ipfix_session::{SessionFault, read_on};
use std::alloc::{AllocError, Global};

/// A file of an earlier run, of which some was read. It holds no more of its octets than the front of one
/// message, at most [`LONGEST_MESSAGE`](ipfix_session::LONGEST_MESSAGE) octets.
#[derive(Drop)]
pub struct EarlierReading {
    messages: FileMessages,
    buffer: Vec<u8>,
    fault: Option<SessionFault>,
}

impl EarlierReading {
    /// Nothing was read yet.
    pub fn new(alloc: Global) -> Self
        ensures { HasReadSession result [] }
    {
        EarlierReading {
            messages: FileMessages::new(alloc),
            buffer: Vec::new(alloc),
            fault: None,
        }
    }

    /// Reads on. After a message that has a fault nothing more is taken. An `Err` is memory that couldn't be had:
    /// after it the reading is of no use.
    pub fn read(&mut self, alloc: Global, piece: &[u8]) -> Result<(), AllocError>
        ensures { ForTextRead self.old
            (λ text. OnOk result (HasReadSession self.new (text ++ piece.now))) }
    {
        if self.fault.is_some() {
            return Ok(());
        }
        let read = read_on(alloc, &mut self.messages, &mut self.buffer, piece, &mut ());
        if is_out_of_memory(read) {
            return Err(AllocError);
        }
        self.fault = read.err();
        Ok(())
    }

    /// What the file has that ends here. This takes no memory.
    pub fn finish(self) -> EarlierSession
        ensures { ForTextRead self (λ text. IsEarlierSession text result) }
    {
        let EarlierReading {
            messages,
            buffer,
            fault,
        } = self;
        let fault = fault_at_end(fault, &buffer);
        let FileMessages {
            domains,
            tally,
            last,
        } = messages;
        let in_force = in_force_after(domains, fault);
        EarlierSession {
            full: tally.into_report(fault, in_force),
            last,
        }
    }
}

// Whether memory ran out.
fn is_out_of_memory(read: Result<(), SessionFault>) -> bool
    ensures { IsTrue result ↔ (read ≡ Err (Message OutOfMemory)) }
{
    matches!(read, Err(SessionFault::Message(MessageFault::OutOfMemory)))
}

// The fault of a session that ends with these octets left.
fn fault_at_end(fault: Option<SessionFault>, rest: &[u8]) -> Option<SessionFault>
    ensures { result ≡ ended_by fault rest.now }
{
    match fault {
        Some(fault) => Some(fault),
        None if rest.is_empty() => None,
        None => Some(SessionFault::Truncated),
    }
}

// The domains of a session that ended so, if it could have gone on.
fn in_force_after(domains: Domains, fault: Option<SessionFault>) -> Option<Domains>
    ensures { result ≡ (if ends_open fault then Some domains else None) }
{
    match fault {
        Some(SessionFault::Message(_)) | Some(SessionFault::SinkClosed) => None,
        _ => Some(domains),
    }
}
