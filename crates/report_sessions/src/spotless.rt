//! Whether anything that was sent isn't in the table.

ghost use Rattle.std.specs.Prelude.{◌≡◌, ◌↔◌, All, IsTrue};
ghost use Rattle.ipfix_session.specs.declared.report.DomainBalance.{DomainBalance as BalanceValue};
ghost use Rattle.report_sessions.specs.Spotless.{IsSpotless, IsSpotlessSession, IsSpotlessTally, IsUnbroken, NoCounterLacks};

use flow_table::{Missing, Tally};
use ipfix_session::{DomainBalance, DomainReport, FullReport};

/// Whether nothing shows that anything wasn't counted. By the sequence numbers no data record was lost,
/// none stepped backward, and none is unaccounted for (RFC 7011, section 3.1); no set was unknown or
/// skipped (sections 9 and 3.3.2); no session has a fault; no record is untimed, backward, unkeyed or too
/// long; and no used record lacks a counter.
pub fn is_spotless(reports: &[FullReport], tally: &Tally, missing: &Missing) -> bool
    ensures { IsTrue result ↔ IsSpotless reports.now tally.now missing.now }
{
    are_spotless(reports) && is_spotless_tally(tally) && lacks_no_counter(missing)
}

/// What [`is_spotless`] says of sessions, where their records are in no table.
pub fn are_spotless(reports: &[FullReport]) -> bool
    ensures { IsTrue result ↔ All IsSpotlessSession reports.now }
{
    reports.iter().all(|full| is_spotless_session(full))
}

// Whether nothing shows that anything of a session wasn't counted.
fn is_spotless_session(full: &FullReport) -> bool
    ensures { IsTrue result ↔ IsSpotlessSession full.now }
{
    full.report.fault.is_none()
        && are_unbroken(&full.report.domains)
        && full.report.unknown_sets == 0
        && full.report.skipped_sets == 0
        && are_accounted(&full.balances)
}

fn are_unbroken(domains: &[DomainReport]) -> bool
    ensures { IsTrue result ↔ All IsUnbroken domains.now }
{
    domains
        .iter()
        .all(|domain| domain.lost == 0 && domain.backward == 0)
}

fn are_accounted(balances: &[DomainBalance]) -> bool
    ensures { IsTrue result ↔ All (λ (b : BalanceValue). b.unaccounted ≡ 0) balances.now }
{
    balances.iter().all(|balance| balance.unaccounted == 0)
}

fn is_spotless_tally(tally: &Tally) -> bool
    ensures { IsTrue result ↔ IsSpotlessTally tally.now }
{
    tally.untimed == 0 && tally.backward == 0 && tally.unkeyed == 0 && tally.too_long == 0
}

fn lacks_no_counter(missing: &Missing) -> bool
    ensures { IsTrue result ↔ NoCounterLacks missing.now }
{
    missing.counters.iter().all(|count| *count == 0)
}
