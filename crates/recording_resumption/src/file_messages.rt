//! The messages of an earlier run's file.

ghost use Rattle.std.specs.Prelude.{◌≡◌, [], false};
ghost use Rattle.ipfix_message.specs.Domains.{IsAnswer, Message, StandsFor};
ghost use Rattle.recording_resumption.specs.Readings.{HasCounted};
ghost use Rattle.recording_resumption.specs.Resumption.{last_message};

use crate::last_message::LastMessage;
use indexmap::IndexMap;
use ipfix_message::{Decoded, Domains};
use ipfix_session::{MessageSink, SessionFault, Tally};
use ipfix_wire::Header;
use std::alloc::Global;

/// What the messages of a file left that were read: its domains, its counts, and the last message of each domain.
#[derive(Drop)]
pub struct FileMessages {
    pub domains: Domains,
    pub tally: Tally,
    pub last: IndexMap<u32, LastMessage>,
}

// What a message says that was decoded.
fn last_message(decoded: &Decoded) -> LastMessage
    ensures { (m : Message) → IsAnswer decoded.now m → result ≡ last_message m }
{
    let header = decoded.header;
    let due = if decoded.unknown_sets == 0 {
        let records = (decoded.records.len() % (1 << 32)) as u32;
        Some(header.sequence.wrapping_add(records))
    } else {
        None
    };
    LastMessage {
        sequence: header.sequence,
        due,
        export_time: header.export_time,
    }
}

impl FileMessages {
    /// No message was read yet.
    pub fn new(alloc: Global) -> Self
        ensures counted { HasCounted result [] }
        ensures fresh { result.domains.spent ≡ false }
        ensures empty { StandsFor result.domains.domains [] }
    {
        FileMessages {
            domains: Domains::new(alloc),
            tally: Tally::new(alloc),
            last: IndexMap::new(alloc),
        }
    }
}

impl MessageSink<()> for FileMessages {
    ghost use Rattle.recording_resumption.specs.Readings.{messages_view};

    ghost seen = { messages_view };

    /// Decodes a message, and counts it then.
    fn take(
        &mut self,
        alloc: Global,
        header: &Header,
        message: &[u8],
        _to: &mut (),
    ) -> Result<(), SessionFault> {
        let decoded = self.domains.decode_with_header(alloc, header, message)?;
        self.tally.ledger.make_room(1)?;
        let _ = self
            .last
            .insert(decoded.header.domain, last_message(&decoded))?;
        let records = decoded.records.len() as u64;
        let passed_over = decoded.passed_over();
        self.tally.delivered = self.tally.delivered.saturating_add(records);
        self.tally.take(&decoded.header, records, passed_over);
        Ok(())
    }
}
