//! Why nothing was collected, and where a sum is too large.

ghost use Rattle.std.specs.Prelude.{◌≡◌};
ghost use Rattle.flow_collect.specs.Failures.{large_failure, only_fault};
ghost use Rattle.flow_collect.specs.Great.{first_great as first_great_in};

use crate::collected::FilteredReport;
use crate::fault::CollectFault;
use flow_table::RowPlace;

/// Why nothing was collected, and where a sum is too large.
#[derive(Debug, Drop)]
pub struct CollectFailure {
    pub fault: CollectFault,
    /// After `SumTooLarge` a row of which a sum or the number of flows is 2^64 or more. There is none where records are
    /// too many to be counted by class, or an estimate is too large.
    pub row: Option<RowPlace>,
    /// After `SumTooLarge` the number of the first session, counted from 0, that tells of a record with a counter above
    /// 2^63.
    pub session: Option<usize>,
}

impl CollectFailure {
    /// A fault alone.
    pub fn only(fault: CollectFault) -> CollectFailure
        ensures { result ≡ only_fault fault }
    {
        CollectFailure {
            fault,
            row: None,
            session: None,
        }
    }

    /// A sum that is too large, in this row, where sessions tell this.
    pub(crate) fn large(row: Option<RowPlace>, reports: &[FilteredReport]) -> CollectFailure
        ensures { result ≡ large_failure row reports.now }
    {
        CollectFailure {
            fault: CollectFault::SumTooLarge,
            row,
            session: first_great(reports),
        }
    }
}

// The number of the first session that tells of a record with a great counter.
fn first_great(reports: &[FilteredReport]) -> Option<usize>
    ensures { result ≡ first_great_in reports.now }
{
    reports.iter().position(|told| told.is_great)
}
