//! Whether sampling leaves a run spotless.

ghost use Rattle.std.specs.Prelude.{◌≡◌, ◌↔◌, All, IsTrue, false};
ghost use Rattle.flow_estimates.specs.declared.report.SamplingReport.{SamplingReport as ReportValue};
ghost use Rattle.report_sampling.specs.SpotlessSampling.{IsSamplingSpotless};

use flow_estimates::SamplingReport;

/// Whether no counter of a table is known to be a part of what was sent, by the rates that exporters told: no flow lacks
/// the rate that its domain has at the session's end, and none was sampled, unless what it counts is scaled.
pub fn is_sampling_spotless(is_scaled: bool, reports: &[SamplingReport]) -> bool
    ensures { IsTrue result ↔ IsSamplingSpotless is_scaled reports.now }
{
    are_rated(reports) && (is_scaled || are_unsampled(reports))
}

fn are_rated(reports: &[SamplingReport]) -> bool
    ensures { IsTrue result ↔ All (λ (report : ReportValue). report.is_unrated ≡ false) reports.now }
{
    reports.iter().all(|report| !report.is_unrated)
}

fn are_unsampled(reports: &[SamplingReport]) -> bool
    ensures { IsTrue result ↔ All (λ (report : ReportValue). report.is_sampled ≡ false) reports.now }
{
    reports.iter().all(|report| !report.is_sampled)
}
