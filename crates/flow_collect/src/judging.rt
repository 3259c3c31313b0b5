//! What sessions tell of sampling, and whether it makes that nothing is collected.

ghost use Rattle.std.specs.Prelude.{◌≡◌};
ghost use Rattle.flow_collect.specs.Failures as failures;
ghost use Rattle.flow_collect.specs.Rated as rated;

use crate::collected::FilteredReport;
use crate::failure::CollectFailure;
use crate::fault::CollectFault;
use crate::session_context::InContext;

/// Whether a session refuses sampled records.
pub fn refuse_sampled<S>(sources: &[InContext<S>]) -> bool
    ensures { result ≡ rated.refuse_sampled sources.now }
{
    sources.iter().any(|source| source.context.refuses_sampled)
}

/// What makes of what sessions tell of sampling that nothing is collected: an estimate that is too large, and then a
/// sampled record where these are refused.
pub fn sampling_fault(refuses: bool, reports: &[FilteredReport]) -> Option<CollectFault>
    ensures { result ≡ rated.sampling_fault refuses reports.now }
{
    if tell_too_large(reports) {
        Some(CollectFault::SumTooLarge)
    } else if refuses && tell_sampled(reports) {
        Some(CollectFault::Sampled)
    } else {
        None
    }
}

/// A fault of what sessions tell of sampling, and which session tells of a great counter, if it is a sum that is too large.
pub fn sampling_failure(fault: CollectFault, reports: &[FilteredReport]) -> CollectFailure
    ensures { result ≡ failures.sampling_failure fault reports.now }
{
    match fault {
        CollectFault::SumTooLarge => CollectFailure::large(None, reports),
        _ => CollectFailure::only(fault),
    }
}

fn tell_too_large(reports: &[FilteredReport]) -> bool
    ensures { result ≡ rated.tell_large reports.now }
{
    reports.iter().any(|told| told.sampling.is_too_large)
}

fn tell_sampled(reports: &[FilteredReport]) -> bool
    ensures { result ≡ rated.tell_sampled reports.now }
{
    reports.iter().any(|told| told.sampling.is_sampled)
}
