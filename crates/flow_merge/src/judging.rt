//! What a session's report says of its octets as an export.

ghost use Rattle.std.specs.Prelude.{◌↔◌, All, IfErr, IsTrue, OnOk};
ghost use Rattle.flow_merge.specs.Judged.{IsBadBy, IsWell, ReportsExport};
ghost use Rattle.flow_merge.specs.Merging.{LosesNone};

use crate::merge_fault::MergeFault;
use ipfix_session::{DomainReport, SessionReport};

/// Answers whether a session's octets can be a whole export: it has no fault, it had messages, of which
/// nothing was passed over, and in none of its domains a record is missing. The fault is the first that
/// fits, in this order.
pub fn judge(report: &SessionReport) -> Result<(), MergeFault>
    ensures ok { OnOk result (IsWell report.now) }
    ensures fault { IfErr result (IsBadBy report.now) }
{
    if let Some(fault) = report.fault {
        return Err(MergeFault::Session(fault));
    }
    if !is_of_export(report) {
        return Err(MergeFault::NotAnExport);
    }
    if !lose_none(&report.domains) {
        return Err(MergeFault::Lost);
    }
    Ok(())
}

// Whether there were messages, and nothing of them was passed over.
fn is_of_export(report: &SessionReport) -> bool
    ensures { IsTrue result ↔ ReportsExport report.now }
{
    report.messages > 0
        && report.skipped_sets == 0
        && report.unknown_sets == 0
        && report.ignored_withdrawals == 0
}

// Whether the sequence numbers of all domains count on.
fn lose_none(domains: &[DomainReport]) -> bool
    ensures { IsTrue result ↔ All LosesNone domains.now }
{
    domains
        .iter()
        .all(|domain| domain.lost == 0 && domain.backward == 0)
}
