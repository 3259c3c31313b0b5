//! A transport session that is fed its octets in pieces (RFC 7011, section 3.1).

ghost use Rattle.std.specs.Prelude.{◌≡◌, ◌≤◌, [], length, Some, None, Err, IfErr, OnOk, false};
ghost use Rattle.std.specs.Option.{ForSome};
ghost use Rattle.ipfix_session.specs.declared.message_stream.TheConstants.{LONGEST_MESSAGE};
ghost use Rattle.ipfix_session.specs.Feeding.{AreToldAs, Feeds, ForText, StandsForText};
ghost use Rattle.ipfix_session.specs.Faults.{ends_open};
ghost use Rattle.ipfix_session.specs.Given.{IsToldOf};
ghost use Rattle.ipfix_session.specs.Reports.{IsReportWithin, Reports, ended_by};
ghost use Rattle.ipfix_session.specs.Places.{CountsInFull, IsFullReportWithin, ReportsInFull};

use crate::buffer::read_on;
use crate::fault::SessionFault;
use crate::intake::Intake;
use crate::report::{FullReport, SessionReport};
use crate::sink::Sink;
use std::alloc::Global;
use std::marker::Model;

/// A transport session. It holds no more of its octets than the front of one message, at most
/// [`LONGEST_MESSAGE`](crate::LONGEST_MESSAGE) octets.
#[derive(Drop)]
pub struct Session {
    intake: Intake,
    buffer: Vec<u8>,
    fault: Option<SessionFault>,
}

impl Model for Session {
    ghost use Rattle.std.specs.Prelude.{◌≤◌, length};
    ghost use Rattle.ipfix_session.specs.declared.message_stream.TheConstants.{LONGEST_MESSAGE};
    ghost use Rattle.ipfix_session.specs.Feeding.{State};
    ghost use Rattle.ipfix_session.specs.Intake.{counts_of};

    ghost Value = { State };

    ghost view = { λ s. record {
      counts = counts_of s.intake.tally;
      domains = s.intake.domains;
      limit = s.intake.limit;
      buffer = s.buffer.items;
      fault = s.fault;
    } };

    ghost invariant = { λ s. length s.buffer.items ≤ LONGEST_MESSAGE };
}

impl Session {
    /// A session of which nothing has come yet. Its templates may count anything.
    pub fn new(alloc: Global) -> Self
        ensures { StandsForText None result [] }
    {
        Session::with_limit(alloc, None)
    }

    /// A session of which nothing has come yet, and whose templates may count so much, if this is a limit
    /// ([`SessionLimits::templates`](crate::SessionLimits)).
    pub fn with_limit(alloc: Global, limit: Option<u64>) -> Self
        ensures { StandsForText limit result [] }
    {
        Session {
            intake: Intake::new(alloc, limit),
            buffer: Vec::new(alloc),
            fault: None,
        }
    }

    /// Takes the next octets: the records of each message that is whole by now go to the sink, in order.
    ///
    /// The fault is that of the first message that is refused, also since more templates would be in force after it
    /// than the limit allows (`TooManyFields`), and which gives none of its records; or
    /// `SinkClosed` if the sink gives a record back. `OutOfMemory` may come in place of any other, after
    /// whole messages. After a fault each further call answers it again and puts nothing.
    pub fn feed<K: Sink>(
        &mut self,
        alloc: Global,
        piece: &[u8],
        sink: &mut K,
    ) -> Result<(), SessionFault>
        ensures feeds { ForText self.old (λ limit text.
            Feeds K.seen limit result text piece.now sink.old sink.new self.new) }
        ensures ok { OnOk result (self.new.fault ≡ None) }
        ensures err { IfErr result (λ fault. self.new.fault ≡ Some fault) }
        ensures buffer { length self.new.buffer ≤ LONGEST_MESSAGE }
        ensures again { (fault : SessionFault) → self.old.fault ≡ Some fault
            → result ≡ Err fault }
        ensures same { (fault : SessionFault) → self.old.fault ≡ Some fault
            → self.new ≡ self.old }
        ensures same_sink { (fault : SessionFault) → self.old.fault ≡ Some fault
            → sink.new ≡ sink.old }
    {
        if let Some(fault) = self.fault {
            return Err(fault);
        }
        let result = read_on(alloc, &mut self.intake, &mut self.buffer, piece, sink);
        self.fault = result.err();
        result
    }

    /// What the session gave, and why it ended early: its fault, or `Truncated` if its octets end
    /// within a message. This takes no memory.
    pub fn finish(self) -> SessionReport
        ensures text { ForText self (λ limit text. IsReportWithin limit result text) }
        ensures so_far { AreToldAs self.counts (Reports result) }
        ensures fault { ForSome self.fault (λ fault. result.fault ≡ Some fault) }
    {
        self.finish_in_full().report
    }

    /// The same report, with the balances of the domains, the place of the message that ended the session,
    /// and the templates that are in force at its end. This takes no memory.
    pub fn finish_in_full(self) -> FullReport
        ensures text { ForText self (λ limit text. IsFullReportWithin limit result text) }
        ensures so_far { AreToldAs self.counts (CountsInFull result) }
        // After a fault with which it could not have gone on.
        ensures refused { ends_open self.fault ≡ false
            → AreToldAs self.counts (ReportsInFull result) }
        ensures fault { ForSome self.fault (λ fault. result.report.fault ≡ Some fault) }
    {
        let Session {
            intake,
            buffer,
            fault,
        } = self;
        intake.into_report(fault_at_end(fault, &buffer))
    }

    // What the session gave, which this fault ended: of all its text, if it has none itself, and of what was
    // counted, if this is one with which it could not have gone on.
    pub(crate) fn finish_after(self, fault: SessionFault) -> FullReport
        ensures text { self.fault ≡ None
            → ForText self (IsToldOf (ReportsInFull result)) }
        ensures so_far { ends_open (Some fault) ≡ false
            → AreToldAs self.counts (ReportsInFull result) }
        ensures fault { result.report.fault ≡ Some fault }
    {
        let Session {
            intake,
            buffer: _,
            fault: _,
        } = self;
        intake.into_report(Some(fault))
    }
}

// The fault of a session that ends with these octets left.
fn fault_at_end(fault: Option<SessionFault>, rest: &[u8]) -> Option<SessionFault>
    ensures { result ≡ ended_by fault rest.now }
{
    match fault {
        Some(fault) => Some(fault),
        None if rest.is_empty() => None,
        None => Some(SessionFault::Truncated),
    }
}
