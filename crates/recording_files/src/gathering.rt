//! Gathering the whole messages of a read.

ghost use Rattle.std.specs.Prelude.{◌≡◌, ◌++◌, [], OnOk, OnErr};
ghost use Rattle.recording_files.specs.Recorders.{ForCounted};
ghost use Rattle.recording_files.specs.Gathering.{IsFresh};
ghost use Rattle.recording_files.specs.Sessions.{IsTold};

use crate::record_fault::RecordFault;
use crate::recorded_session::RecordedSession;
use crate::recorder::Recorder;
use crate::session_counts::SessionCounts;
use ipfix_message::MessageFault;
use ipfix_session::{MessageSink, SessionFault};
use ipfix_wire::Header;
use std::alloc::{AllocError, Global};

// Appends two texts, or nothing if there is no memory.
fn append_both(first: &[u8], second: &[u8], out: &mut Vec<u8>) -> Result<(), AllocError>
    ensures both { OnOk result (out.new.items ≡ out.old.items ++ (first.now ++ second.now)) }
    ensures none { OnErr result (out.new.items ≡ out.old.items) }
{
    let length = out.len();
    out.extend_from_slice(first)?;
    match out.extend_from_slice(second) {
        Ok(()) => Ok(()),
        Err(error) => {
            out.truncate(length);
            Err(error)
        }
    }
}

/// A session while it is recorded, and what the whole messages of a read have: the octets that are to be
/// written, and what is to be counted then.
#[derive(Drop)]
pub struct Gathering {
    pub recorder: Recorder,
    pub counts: SessionCounts,
    /// What is to be written.
    pub out: Vec<u8>,
    /// What stands before a message in its file.
    pub lead: Vec<u8>,
}

impl Gathering {
    /// The start of a session whose templates may count so much together, if they have a limit.
    pub fn new(alloc: Global, limit: Option<u64>) -> Self
        ensures { IsFresh limit result }
    {
        Gathering {
            recorder: Recorder::with_limit(alloc, limit),
            counts: SessionCounts::new(alloc),
            out: Vec::new(alloc),
            lead: Vec::new(alloc),
        }
    }

    /// Nothing is gathered yet of a read.
    pub fn begin_read(&mut self)
        ensures recorder { self.new.recorder ≡ self.old.recorder }
        ensures told { self.new.counts.told ≡ self.old.counts.told }
        ensures out { self.new.out.items ≡ [] }
        ensures waiting { self.new.counts.waiting ≡ [] }
    {
        self.out.clear();
        self.counts.clear_waiting();
    }

    /// What is told of the session, which ended so. This takes no memory.
    pub fn into_session(self, ended: Result<(), RecordFault>) -> RecordedSession
        ensures told { ForCounted self.counts.told (IsTold result) }
        ensures ended { result.ended ≡ ended }
    {
        let Gathering {
            recorder: _,
            counts,
            out: _,
            lead: _,
        } = self;
        counts.into_session(ended)
    }
}

impl MessageSink<()> for Gathering {
    ghost use Rattle.recording_files.specs.Gathering.{gathering_view};

    ghost seen = { gathering_view };

    /// Gathers a message. After a fault it is not among those that were gathered.
    fn take(
        &mut self,
        alloc: Global,
        header: &Header,
        message: &[u8],
        to: &mut (),
    ) -> Result<(), SessionFault> {
        let count = self
            .recorder
            .take_message(alloc, header, message, &mut self.lead)?;
        let length = self.out.len();
        append_both(&self.lead, message, &mut self.out)?;
        match self.counts.wait_for(count) {
            Ok(()) => Ok(()),
            Err(_) => {
                self.out.truncate(length);
                Err(SessionFault::Message(MessageFault::OutOfMemory))
            }
        }
    }
}
