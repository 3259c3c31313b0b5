//! Counting messages once they are written.

ghost use Rattle.std.specs.Prelude.{◌≡◌, ◌+◌, ◌∷◌, [], ℕ, length};
ghost use Rattle.ipfix_session.specs.Rooms.{HasRoom};
ghost use Rattle.recording_files.specs.Counting.{file_after, CountsInTally};

use crate::file_report::FileReport;
use crate::message_count::MessageCount;
use ipfix_session::{Account, Tally, lost_before};

// The report of a file after one more message, of a domain that has this account.
fn report_after(file: FileReport, account: &Account, message: &MessageCount) -> FileReport
    ensures { result ≡ file_after file account.now message.now }
{
    let sequence = message.header.sequence;
    let (lost, backward) = lost_before(account.due, sequence);
    let (unaccounted, _) = lost_before(account.unsure, sequence);
    FileReport {
        messages: file.messages.saturating_add(1),
        records: file.records.saturating_add(message.records),
        lost: file.lost.saturating_add(lost),
        backward: file.backward.saturating_add(backward),
        unknown_sets: file
            .unknown_sets
            .saturating_add(message.passed_over.unknown_sets),
        unaccounted: file.unaccounted.saturating_add(unaccounted),
        ignored_withdrawals: file.ignored_withdrawals,
    }
}

// Counts a message.
fn count_one(message: &MessageCount, tally: &mut Tally, file: &mut FileReport)
    requires { HasRoom tally.old.ledger 1 }
    ensures room { (more : ℕ) → HasRoom tally.old.ledger (more + 1)
        → HasRoom tally.new.ledger more }
    ensures counts { CountsInTally tally.old file.old tally.new file.new (message.now ∷ []) }
{
    let account = tally.ledger.account(message.header.domain);
    *file = report_after(*file, &account, message);
    tally.delivered = tally.delivered.saturating_add(message.records);
    tally.take(&message.header, message.records, message.passed_over);
}

/// Counts messages in turn.
pub fn count_all(messages: &[MessageCount], tally: &mut Tally, file: &mut FileReport)
    requires { HasRoom tally.old.ledger (length messages.now) }
    ensures room { HasRoom tally.new.ledger 0 }
    ensures counts { CountsInTally tally.old file.old tally.new file.new messages.now }
{
    for message in messages {
        count_one(message, tally, file);
    }
}
