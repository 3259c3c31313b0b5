//! What is told of the rates of a session's records at its end.

ghost use Rattle.std.specs.Prelude.{◌≡◌, is_some};
ghost use Rattle.std.specs.List.{list_any};
ghost use Rattle.flow_estimates.specs.Noted as noted;
ghost use Rattle.flow_estimates.specs.Noted.{IsReportOf};

use crate::rate_notes::{RateCount, RateNotes, is_sampled};
use exporter_options::{Rate, ToldFields};
use std::alloc::Global;
use std::collections::VecDeque;

/// What is told of the rates of a session's records.
#[derive(Drop)]
pub struct SamplingReport {
    /// How many records have which rate, the newest first. Where the rate is `None`, one was told of their domain only
    /// after them, or by another selector than theirs.
    pub rates: VecDeque<RateCount>,
    /// Whether a record was sampled: fewer packets were selected than there are, by the rate known beside it, or where
    /// none was known by that of its domain at the session's end.
    pub is_sampled: bool,
    /// Whether a record has no rate, and its domain has one at the session's end.
    pub is_unrated: bool,
    /// Whether an estimate would be 2^64 or more.
    pub is_too_large: bool,
}

/// That of a session of which nothing was noted.
pub fn no_report(alloc: Global) -> SamplingReport
    ensures { noted.IsEmpty result }
{
    SamplingReport {
        rates: VecDeque::new(alloc),
        is_sampled: false,
        is_unrated: false,
        is_too_large: false,
    }
}

/// What is told of a session by what was noted of its records, and what its options records told.
pub fn report_of(notes: RateNotes, told: &ToldFields) -> SamplingReport
    ensures { IsReportOf told.now.known notes result }
{
    let is_sampled = notes.has_sampled() || are_late_sampled(told, notes.rates());
    let is_unrated = are_late(told, notes.rates());
    let is_too_large = notes.has_too_large();
    SamplingReport {
        rates: told_of(told, notes.into_rates()),
        is_sampled,
        is_unrated,
        is_too_large,
    }
}

// Whether records were sampled by a rate that came late.
fn are_late_sampled(told: &ToldFields, counts: &VecDeque<RateCount>) -> bool
    ensures { result ≡ list_any (λ c. noted.is_late_sampled told.now.known c) counts.now.items }
{
    counts
        .iter()
        .any(|count| is_sampled(late_rate(told, count)))
}

// Whether a rate came late.
fn are_late(told: &ToldFields, counts: &VecDeque<RateCount>) -> bool
    ensures { result ≡ list_any (λ c. is_some (noted.late_rate told.now.known c)) counts.now.items }
{
    counts.iter().any(|count| late_rate(told, count).is_some())
}

// The rate of a domain at the end, where none was known beside records.
fn late_rate(told: &ToldFields, count: &RateCount) -> Option<Rate>
    ensures { result ≡ noted.late_rate told.now.known count.now }
{
    if count.rate.is_none() {
        told.rate_of_domain(count.domain)
    } else {
        None
    }
}

fn is_told(told: &ToldFields, count: &RateCount) -> bool
    ensures { result ≡ noted.is_told told.now.known count.now }
{
    count.rate.is_some() || told.rate_of_domain(count.domain).is_some()
}

// The counts that are told of.
fn told_of(told: &ToldFields, counts: VecDeque<RateCount>) -> VecDeque<RateCount>
    ensures { result.items ≡ noted.told_counts told.now.known counts.items }
{
    let mut counts = counts;
    counts.retain(|count| is_told(told, count));
    counts
}
