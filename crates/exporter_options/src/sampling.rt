//! At which rate packets are sampled (RFC 5476, section 6.5.2; RFC 5477, section 8.2).

ghost use Rattle.std.specs.Prelude.{◌≡◌};
ghost use Rattle.exporter_options.specs.Rates as rates;

use crate::fields::{number, number_as_kind};
use ipfix_elements::{Kind, Width};
use ipfix_message::Fields;

/// Of how many packets at most one is selected, by a rate that counts.
pub const GREATEST_RATE: u64 = 1_000_000;

const SELECTOR: Kind = Kind::Unsigned(Width::Eight);

/// So many packets are selected, of so many.
#[derive(Clone, Copy, Debug, PartialEq, Eq)]
pub struct Rate {
    /// From 1.
    pub selected: u32,
    /// From `selected`, up to [`GREATEST_RATE`] times `selected`.
    pub population: u64,
}

/// What is told of sampling.
#[derive(Clone, Copy, Debug, PartialEq, Eq)]
pub enum Sampling {
    /// A rate that counts.
    At(Rate),
    /// A rate with a zero, without a part, below 1 or above [`GREATEST_RATE`].
    Unusable,
}

// So many of so many, if the second number is known.
fn sampled(selected: u32, population: Option<u64>) -> Sampling
    ensures { result ≡ rates.sampled selected population }
{
    match population {
        Some(population)
            if selected > 0
                && u64::from(selected) <= population
                && population <= GREATEST_RATE * u64::from(selected) => {
            Sampling::At(Rate {
                selected,
                population,
            })
        }
        _ => Sampling::Unusable,
    }
}

// By systematic count-based sampling: of each interval, and the space after it, the interval is selected.
fn by_count(fields: &Fields) -> Option<Sampling>
    ensures { result ≡ rates.by_count fields.now }
{
    let interval = number(fields, 305)?;
    let space = number(fields, 306);
    Some(sampled(
        interval,
        space.map(|space| u64::from(interval) + u64::from(space)),
    ))
}

// By random sampling of n out of N.
fn by_size(fields: &Fields) -> Option<Sampling>
    ensures { result ≡ rates.by_size fields.now }
{
    let size = number(fields, 309)?;
    let population = number(fields, 310);
    Some(sampled(size, population.map(|population| u64::from(population))))
}

// By the algorithm that the record names, or else count-based.
fn by_algorithm(fields: &Fields) -> Option<Sampling>
    ensures { result ≡ rates.by_algorithm fields.now }
{
    match number(fields, 304) {
        None | Some(1) => by_count(fields),
        Some(3) => by_size(fields),
        Some(_) => None,
    }
}

// One of as many packets as an element says.
fn one_of(fields: &Fields, element: u16) -> Option<Sampling>
    ensures { result ≡ rates.one_of element fields.now }
{
    Some(sampled(1, Some(u64::from(number(fields, element)?))))
}

/// What fields tell of sampling: by selectorAlgorithm (304), else by samplerRandomInterval (50), else by
/// samplingInterval (34).
pub fn sampling_in(fields: &Fields) -> Option<Sampling>
    ensures { result ≡ rates.sampling_in fields.now }
{
    by_algorithm(fields)
        .or_else(|| one_of(fields, 50))
        .or_else(|| one_of(fields, 34))
}

/// The selector that fields name: selectorId (302), else samplerId (48).
pub fn selector_in(fields: &Fields) -> Option<u64>
    ensures { result ≡ rates.selector_in fields.now }
{
    match number_as_kind(fields, SELECTOR, 302) {
        Some(selector) => Some(selector),
        None => number_as_kind(fields, SELECTOR, 48),
    }
}
