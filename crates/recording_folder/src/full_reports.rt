//! The report of a file that is a session by itself.

ghost use Rattle.std.specs.Prelude.{◌≡◌, [], List, sum_by};
ghost use Rattle.ipfix_message.specs.Domains.{Message};
ghost use Rattle.ipfix_session.specs.Ledger.{capped};
ghost use Rattle.recording_files.specs.FileReports.{file_report};
ghost use Rattle.recording_folder.specs.FullReports.{CountsAll};

use ipfix_session::{DomainBalance, DomainReport, FullReport};
use recording_files::FileReport;

/// The report of a file of a session's messages, in all its domains.
pub(crate) fn report_of(full: &FullReport) -> FileReport
    ensures { (ms : List Message) → CountsAll full.now ms → result ≡ file_report [] ms }
{
    FileReport {
        messages: full.report.messages,
        records: full.report.delivered,
        lost: lost_in(&full.report.domains),
        backward: backward_in(&full.report.domains),
        unknown_sets: full.report.unknown_sets,
        unaccounted: unaccounted_in(&full.balances),
        ignored_withdrawals: 0,
    }
}

// How many records were lost in all domains.
fn lost_in(domains: &[DomainReport]) -> u64
    ensures { result ≡ capped (sum_by (λ d. d.lost) domains.now) }
{
    let mut lost = 0u64;
    for domain in domains {
        lost = lost.saturating_add(domain.lost);
    }
    lost
}

// How often a sequence number went backward in all domains.
fn backward_in(domains: &[DomainReport]) -> u64
    ensures { result ≡ capped (sum_by (λ d. d.backward) domains.now) }
{
    let mut backward = 0u64;
    for domain in domains {
        backward = backward.saturating_add(domain.backward);
    }
    backward
}

// How many records are unaccounted for in all domains.
fn unaccounted_in(balances: &[DomainBalance]) -> u64
    ensures { result ≡ capped (sum_by (λ b. b.unaccounted) balances.now) }
{
    let mut unaccounted = 0u64;
    for balance in balances {
        unaccounted = unaccounted.saturating_add(balance.unaccounted);
    }
    unaccounted
}
