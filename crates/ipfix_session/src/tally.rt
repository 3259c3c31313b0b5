//! What the messages of a session gave, counted.

ghost use Rattle.std.specs.Prelude.{◌≡◌, ◌+◌, ◌++◌, ◌∷◌, [], ℕ, List};
ghost use Rattle.ipfix_message.specs.Domains.{Message};
ghost use Rattle.ipfix_session.specs.Feeding.{AreToldAs, Tells};
ghost use Rattle.ipfix_session.specs.Intake.{counts_of};
ghost use Rattle.ipfix_session.specs.Ledger.{count_in};
ghost use Rattle.ipfix_session.specs.Places.{CountsInFull};
ghost use Rattle.ipfix_session.specs.Rooms.{HasRoom};

use crate::account::{NOTHING, add_up};
use crate::fault::SessionFault;
use crate::ledger::Ledger;
use crate::report::{FullReport, MessagePlace, SessionReport};
use ipfix_message::{Domains, PassedOver};
use ipfix_wire::Header;
use std::alloc::Global;

/// The counts of a session. They stop at `u64::MAX`.
#[derive(Drop)]
pub struct Tally {
    /// Messages whose records were all delivered.
    pub messages: u64,
    /// The octets of these messages.
    pub octets: u64,
    /// Data records that were delivered.
    pub delivered: u64,
    /// What the messages passed over.
    pub passed_over: PassedOver,
    /// The accounts of their domains.
    pub ledger: Ledger,
}

impl Tally {
    /// The counts of no messages.
    pub fn new(alloc: Global) -> Self
        ensures { Tells (counts_of result) [] 0 }
    {
        Tally {
            messages: 0,
            octets: 0,
            delivered: 0,
            passed_over: NOTHING,
            ledger: Ledger::new(alloc),
        }
    }

    /// Counts a message whose records, so many, were all delivered.
    pub fn take(&mut self, header: &Header, records: u64, passed_over: PassedOver)
        requires { HasRoom self.old.ledger 1 }
        ensures room { (more : ℕ) → HasRoom self.old.ledger (more + 1)
            → HasRoom self.new.ledger more }
        ensures tells { (ms : List Message) (m : Message) (delivered : ℕ)
            → Tells (counts_of self.old) ms delivered
            → m.header ≡ header.now → count_in m ≡ records → m.decoding.passed_over ≡ passed_over
            → Tells (counts_of self.new) (ms ++ m ∷ []) delivered }
    {
        self.ledger.take(header, records, passed_over);
        self.messages = self.messages.saturating_add(1);
        self.octets = self.octets.saturating_add(u64::from(header.length));
        self.passed_over = add_up(self.passed_over, passed_over);
    }

    /// The full report of the session, which ended with this fault, and of which these domains are told.
    /// This takes no memory.
    pub fn into_report(self, fault: Option<SessionFault>, in_force: Option<Domains>) -> FullReport
        ensures counts { AreToldAs (counts_of self) (CountsInFull result) }
        ensures fault { result.report.fault ≡ fault }
        ensures domains { result.domains ≡ in_force }
    {
        let Tally {
            messages,
            octets,
            delivered,
            passed_over,
            ledger,
        } = self;
        let (domains, balances) = ledger.into_reports();
        let report = SessionReport {
            messages,
            delivered,
            skipped_sets: passed_over.skipped_sets,
            unknown_sets: passed_over.unknown_sets,
            ignored_withdrawals: passed_over.ignored_withdrawals,
            domains,
            fault,
        };
        FullReport {
            report,
            balances,
            stopped_at: MessagePlace {
                message: messages.saturating_add(1),
                octet: octets,
            },
            domains: in_force,
        }
    }
}
