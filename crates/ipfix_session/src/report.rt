//! What a session tells of itself.

use crate::fault::SessionFault;
use ipfix_message::{Domains, PassedOver};

/// What the messages of an observation domain say. The numbers stop at `u64::MAX`.
#[derive(Clone, Copy, Debug, PartialEq, Eq)]
pub struct DomainReport {
    pub domain: u32,
    /// Its data records.
    pub count: u64,
    /// Data records that the sequence numbers say were lost (RFC 7011, section 3.1).
    pub lost: u64,
    /// How often a sequence number went backward.
    pub backward: u64,
}

/// What a session gave, and why it ended early. The numbers stop at `u64::MAX`.
#[derive(Debug, PartialEq, Eq, Drop)]
pub struct SessionReport {
    /// Messages whose records were all taken.
    pub messages: u64,
    /// Data records that were taken.
    pub delivered: u64,
    /// Sets of the messages whose id is 0, 1 or 4 to 255.
    pub skipped_sets: u64,
    /// Data sets of the messages that had no template in force.
    pub unknown_sets: u64,
    /// Withdrawals of the messages that had no template to withdraw.
    pub ignored_withdrawals: u64,
    /// The domains of the messages, in order of first appearance.
    pub domains: Vec<DomainReport>,
    /// Why the session ended before the end of its octets.
    pub fault: Option<SessionFault>,
}

/// What balances the ledger of an observation domain: `count`, `lost` and `unaccounted` together are
/// what its sequence number advanced by, if nothing stepped backward and no message was late
/// ([`ledger_balances`](crate::laws::ledger_balances)). The numbers stop at `u64::MAX`.
#[derive(Clone, Copy, Debug, PartialEq, Eq)]
pub struct DomainBalance {
    pub domain: u32,
    /// The sets and withdrawals of its messages that gave nothing.
    pub passed_over: PassedOver,
    /// Data records by which the sequence number advanced after messages that had an unknown set:
    /// those of that set, and what was lost before the next message. They are not among `lost`. As
    /// there, an advance is below 2^31.
    pub unaccounted: u64,
    /// How often the sequence number of a message that follows one with an unknown set is before what
    /// was due without that set's records. It is not among `backward`.
    pub late: u64,
}

/// Where a message begins in its session. The numbers stop at `u64::MAX`.
#[derive(Clone, Copy, Debug, PartialEq, Eq)]
pub struct MessagePlace {
    /// Its number in the session, from 1.
    pub message: u64,
    /// The place of its first octet in the session, from 0.
    pub octet: u64,
}

/// A report, and beside it what balances its ledger, where the session stopped, and which templates are in
/// force at its end.
#[derive(Drop)]
pub struct FullReport {
    pub report: SessionReport,
    /// The balances of the domains, in the order of their reports.
    pub balances: Vec<DomainBalance>,
    /// Where the first message begins that isn't counted in the report. If a message was malformed or
    /// cut off, it is this one; if all octets are whole messages, they end there.
    pub stopped_at: MessagePlace,
    /// The domains of the messages that count, with the templates that are in force after them (RFC 7011,
    /// section 8). `None` where a message was refused, memory ran out or the sink gave a record back: then no
    /// template is in force for certain.
    pub domains: Option<Domains>,
}
