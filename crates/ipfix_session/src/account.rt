//! What is kept of an observation domain: what the sequence numbers of its messages say (RFC 7011,
//! section 3.1), and what they passed over.

ghost use Rattle.std.specs.Prelude.{◌≡◌};
ghost use Rattle.ipfix_message.specs.Domains.{Message};
ghost use Rattle.ipfix_session.specs.Ledger.{backward_at, count_in, due_after, lost_at, unsure_after};
ghost use Rattle.ipfix_session.specs.Accounts.{account_after};
ghost use Rattle.ipfix_session.specs.Tallies.{added_up};

use ipfix_message::PassedOver;

/// What is kept of a domain's messages. The counts stop at `u64::MAX`.
#[derive(Clone, Copy)]
pub struct Account {
    /// Its data records.
    pub count: u64,
    /// Those that its sequence numbers say were lost.
    pub lost: u64,
    /// How often a sequence number went backward.
    pub backward: u64,
    /// The sets and withdrawals that gave nothing.
    pub passed_over: PassedOver,
    /// Data records after messages that had an unknown set.
    pub unaccounted: u64,
    /// How often a sequence number went backward after such a message.
    pub late: u64,
    /// The sequence number that is due next, if the last message tells it.
    pub due: Option<u32>,
    /// The sequence number after the last message, if it had an unknown set.
    pub unsure: Option<u32>,
}

/// Nothing was passed over.
pub const NOTHING: PassedOver = PassedOver {
    skipped_sets: 0,
    unknown_sets: 0,
    ignored_withdrawals: 0,
};

/// What was passed over before a message and in it.
pub fn add_up(before: PassedOver, more: PassedOver) -> PassedOver
    ensures { result ≡ added_up before more }
{
    PassedOver {
        skipped_sets: before.skipped_sets.saturating_add(more.skipped_sets),
        unknown_sets: before.unknown_sets.saturating_add(more.unknown_sets),
        ignored_withdrawals: before
            .ignored_withdrawals
            .saturating_add(more.ignored_withdrawals),
    }
}

/// The sequence number after a message: as `due` if all its records could be counted, else as `unsure`.
pub fn next_after(sequence: u32, records: u64, unknown_sets: u64) -> (Option<u32>, Option<u32>)
    ensures { (m : Message) → m.header.sequence ≡ sequence → count_in m ≡ records
        → m.decoding.passed_over.unknown_sets ≡ unknown_sets
        → (result.0 ≡ due_after m) × (result.1 ≡ unsure_after m) }
{
    let next = sequence.wrapping_add((records % (1 << 32)) as u32);
    if unknown_sets == 0 {
        (Some(next), None)
    } else {
        (None, Some(next))
    }
}

/// The records that are missing before a sequence number, where this one is due, and whether it is a step
/// backward: 1 if it is (RFC 7011, section 3.1). Where none is due both are 0. After a message that had an
/// unknown set, the same is asked of the number that is due if that set had no records.
pub fn lost_before(due: Option<u32>, sequence: u32) -> (u64, u64)
    ensures lost { result.0 ≡ lost_at due sequence }
    ensures backward { result.1 ≡ backward_at due sequence }
{
    let Some(due) = due else {
        return (0, 0);
    };
    let gap = sequence.wrapping_sub(due);
    if gap < 1 << 31 {
        (u64::from(gap), 0)
    } else {
        (0, 1)
    }
}

impl Account {
    /// The account of no messages.
    pub const EMPTY: Account = Account {
        count: 0,
        lost: 0,
        backward: 0,
        passed_over: NOTHING,
        unaccounted: 0,
        late: 0,
        due: None,
        unsure: None,
    };

    /// The account after one more message, after which these sequence numbers are.
    pub fn after(
        &self,
        sequence: u32,
        count: u64,
        passed_over: PassedOver,
        next: (Option<u32>, Option<u32>),
    ) -> Account
        ensures { result ≡ account_after self.now sequence count passed_over next.0 next.1 }
    {
        let (lost, backward) = lost_before(self.due, sequence);
        let (unaccounted, late) = lost_before(self.unsure, sequence);
        Account {
            count: self.count.saturating_add(count),
            lost: self.lost.saturating_add(lost),
            backward: self.backward.saturating_add(backward),
            passed_over: add_up(self.passed_over, passed_over),
            unaccounted: self.unaccounted.saturating_add(unaccounted),
            late: self.late.saturating_add(late),
            due: next.0,
            unsure: next.1,
        }
    }
}
