//! Taking the messages of a session: each is decoded, its records are put, and then it is counted.

ghost use Rattle.std.specs.Prelude.{◌≡◌, [], Some, None, false, if◌then◌else◌};
ghost use Rattle.ipfix_message.specs.Domains.{StandsFor};
ghost use Rattle.ipfix_session.specs.Faults.{ends_open as is_end_open};
ghost use Rattle.ipfix_session.specs.Feeding.{AreToldAs, Tells};
ghost use Rattle.ipfix_session.specs.Intake.{counts_of};
ghost use Rattle.ipfix_session.specs.Places.{CountsInFull};
ghost use Rattle.ipfix_session.specs.Puts.{Puts};

use crate::fault::{SessionFault, ends_open};
use crate::message_sink::MessageSink;
use crate::report::FullReport;
use crate::sink::Sink;
use crate::tally::Tally;
use ipfix_message::{DataRecord, Domains};
use ipfix_wire::Header;
use std::alloc::Global;
/// What whole messages of a session left: its domains, and its counts.
#[derive(Drop)]
pub struct Intake {
    pub domains: Domains,
    pub tally: Tally,
    /// What the templates may count, if they have a limit.
    pub limit: Option<u64>,
}

// Puts records one by one, up to the first that the sink gives back.
fn put_all<K: Sink>(
    records: Vec<DataRecord>,
    delivered: &mut u64,
    sink: &mut K,
) -> Result<(), SessionFault>
    ensures { Puts K.seen result records.items delivered.old delivered.new sink.old sink.new }
{
    for record in records {
        if sink.put(record).is_err() {
            return Err(SessionFault::SinkClosed);
        }
        *delivered = delivered.saturating_add(1);
    }
    Ok(())
}

impl Intake {
    pub fn new(alloc: Global, limit: Option<u64>) -> Self
        ensures counts { Tells (counts_of result.tally) [] 0 }
        ensures fresh { result.domains.spent ≡ false }
        ensures empty { StandsFor result.domains.domains [] }
        ensures limit { result.limit ≡ limit }
    {
        Intake {
            domains: Domains::new(alloc),
            tally: Tally::new(alloc),
            limit,
        }
    }

    /// The full report of a session that ended so. This takes no memory.
    pub fn into_report(self, fault: Option<SessionFault>) -> FullReport
        ensures counts { AreToldAs (counts_of self.tally) (CountsInFull result) }
        ensures fault { result.report.fault ≡ fault }
        ensures domains { result.domains
            ≡ (if is_end_open fault then Some self.domains else None) }
    {
        let Intake {
            domains,
            tally,
            limit: _,
        } = self;
        let in_force = if ends_open(fault) {
            Some(domains)
        } else {
            None
        };
        tally.into_report(fault, in_force)
    }
}

impl<K: Sink> MessageSink<K> for Intake {
    ghost use Rattle.ipfix_session.specs.Intake.{record_intake};

    ghost seen = { record_intake K.seen };

    /// Decodes a message, puts its records, and counts it then.
    fn take(
        &mut self,
        alloc: Global,
        header: &Header,
        message: &[u8],
        to: &mut K,
    ) -> Result<(), SessionFault> {
        let decoded = self
            .domains
            .decode_within(alloc, header, message, self.limit)?;
        self.tally.ledger.make_room(1)?;
        let passed_over = decoded.passed_over();
        let count = decoded.records.len() as u64;
        put_all(decoded.records, &mut self.tally.delivered, to)?;
        self.tally.take(&decoded.header, count, passed_over);
        Ok(())
    }
}
