//! How many of a session's records have which rate.

ghost use Rattle.std.specs.Prelude.{◌≡◌, ◌<◌, IfOk, Some, find, is_some};
ghost use Rattle.std.specs.Option.{option_map};
ghost use Rattle.std.specs.VecDeque.{deque_capacity, deque_len};
ghost use Rattle.flow_estimates.specs.Noted as noted;
ghost use Rattle.flow_estimates.specs.Noted.{counted_or};
ghost use Rattle.flow_estimates.specs.declared.rate_notes.TheConstants.{MOST_RATES};

use crate::estimates::{Estimates, has_too_large};
use exporter_options::{Rate, rate_of};
use ipfix_message::DataRecord;
use std::alloc::{AllocError, Global};
use std::collections::VecDeque;
use std::marker::Model;

/// Of how many rates of domains a session counts the records. Of more, those counted longest ago are forgotten.
pub const MOST_RATES: usize = 2048;

/// How many records of a domain have a rate.
#[derive(Clone, Copy)]
pub struct RateCount {
    /// The observation domain.
    pub domain: u32,
    /// The rate that was known beside these records, if one was.
    pub rate: Option<Rate>,
    /// The count stops at `u64::MAX`.
    pub records: u64,
}

/// What is noted of a session's records: how many have which rate, whether one was sampled, and whether one has an
/// estimate of 2^64 or more. Contracts see what is noted.
#[derive(Drop)]
pub struct RateNotes {
    rates: VecDeque<RateCount>,
    has_sampled: bool,
    has_too_large: bool,
    ghost room: { deque_capacity rates ≡ MOST_RATES },
}

impl Model for RateNotes {
    ghost use Rattle.flow_estimates.specs.Noted.{Noted};

    ghost Value = { Noted };

    ghost view = { λ n. record { rates = n.rates.items; has_sampled = n.has_sampled; has_too_large = n.has_too_large } };
}

impl RateNotes {
    /// Nothing is noted. This takes the memory for all that will be.
    pub fn new(alloc: Global) -> Result<Self, AllocError>
        ensures { IfOk result (λ n. n ≡ noted.noted_first) }
    {
        Ok(RateNotes {
            rates: VecDeque::with_capacity(alloc, MOST_RATES)?,
            has_sampled: false,
            has_too_large: false,
        })
    }

    /// Notes a record that has the fields of what is known beside it, and of which these estimates are wanted. One with
    /// scope fields is no flow, and is passed over.
    pub fn note(&mut self, wanted: Option<&Estimates>, item: &DataRecord)
        ensures { self.new ≡ noted.note wanted.entry self.old item.now }
    {
        if item.scope > 0 {
            return;
        }
        let rate = rate_of(&item.fields);
        count(&mut self.rates, item.domain, rate);
        self.has_sampled = self.has_sampled || is_sampled(rate);
        self.has_too_large = self.has_too_large || has_too_large(wanted, &item.fields);
    }

    /// How many records have which rate, the newest first.
    pub fn rates(&self) -> &VecDeque<RateCount>
        ensures { result.now.items ≡ self.now.rates }
    {
        &self.rates
    }

    /// These, of notes that are done with.
    pub fn into_rates(self) -> VecDeque<RateCount>
        ensures { result.items ≡ self.rates }
    {
        self.rates
    }

    /// Whether fewer packets were selected of a record than there are.
    pub fn has_sampled(&self) -> bool
        ensures { result ≡ self.now.has_sampled }
    {
        self.has_sampled
    }

    /// Whether a record has an estimate that is too large.
    pub fn has_too_large(&self) -> bool
        ensures { result ≡ self.now.has_too_large }
    {
        self.has_too_large
    }
}

/// Whether fewer packets are selected than there are.
pub fn is_sampled(rate: Option<Rate>) -> bool
    ensures { result ≡ noted.is_sampled rate }
{
    match rate {
        Some(rate) => u64::from(rate.selected) < rate.population,
        None => false,
    }
}

// Counts a record of a domain that has a rate.
fn count(counts: &mut VecDeque<RateCount>, domain: u32, rate: Option<Rate>)
    requires { deque_capacity counts.old ≡ MOST_RATES }
    ensures counted { counts.new.items ≡ noted.counted domain rate counts.old.items }
    ensures capacity { deque_capacity counts.new ≡ deque_capacity counts.old }
{
    if !count_again(counts, domain, rate) {
        count_anew(counts, domain, rate);
    }
}

// Counts a record of the same domain and rate as the newest, and answers whether it was one.
fn count_again(counts: &mut VecDeque<RateCount>, domain: u32, rate: Option<Rate>) -> bool
    ensures is_again { result ≡ is_some (noted.counted_again domain rate counts.old.items) }
    ensures counted { counts.new.items ≡ counted_or counts.old.items domain rate counts.old.items }
    ensures capacity { deque_capacity counts.new ≡ deque_capacity counts.old }
{
    match counts.front_mut() {
        Some(first) if is_of(first, domain, rate) => {
            first.records = first.records.saturating_add(1);
            true
        }
        _ => false,
    }
}

// Counts a record, whose domain and rate become the newest.
fn count_anew(counts: &mut VecDeque<RateCount>, domain: u32, rate: Option<Rate>)
    requires { deque_capacity counts.old ≡ MOST_RATES }
    ensures counted { counts.new.items ≡ noted.counted_anew domain rate counts.old.items }
    ensures capacity { deque_capacity counts.new ≡ deque_capacity counts.old }
{
    let records = records_of(counts, domain, rate).saturating_add(1);
    counts.retain(|other| !is_of(other, domain, rate));
    counts.truncate(MOST_RATES - 1);
    counts.push_front_reserved(RateCount {
        domain,
        rate,
        records,
    });
}

// How many records of a domain have a rate.
fn records_of(counts: &VecDeque<RateCount>, domain: u32, rate: Option<Rate>) -> u64
    ensures { result ≡ noted.records_of domain rate counts.now.items }
{
    find_records(counts, domain, rate).unwrap_or(0)
}

fn find_records(counts: &VecDeque<RateCount>, domain: u32, rate: Option<Rate>) -> Option<u64>
    ensures { result ≡ option_map (λ c. c.records) (find (noted.is_of domain rate) counts.now.items) }
{
    let count = counts.iter().find(|count| is_of(count, domain, rate))?;
    Some(count.records)
}

fn is_of(count: &RateCount, domain: u32, rate: Option<Rate>) -> bool
    ensures { result ≡ noted.is_of domain rate count.now }
{
    count.domain == domain && count.rate == rate
}
