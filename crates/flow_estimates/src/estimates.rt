//! Estimates of counters, appended to records.

ghost use Rattle.std.specs.Prelude.{◌≡◌, ◌*◌, ◌++◌, None, IsOk, OnOk};
ghost use Rattle.flow_estimates.specs.Estimates as estimates;

use exporter_options::{Rate, rate_of};
use flow_maps::remove;
use ipfix_elements::{Kind, Width, read_number};
use ipfix_message::Fields;
use ipfix_wire::ElementId;
use std::alloc::{AllocError, Global};

/// The kind of all counters: numbers of up to 8 octets (RFC 7011, section 6.2).
const COUNTER_KIND: Kind = Kind::Unsigned(Width::Eight);

/// The least number that 8 octets have no place for.
const FIRST_TOO_LARGE: u128 = 1 << 64;

/// A counter, and the element of its estimate.
#[derive(Clone, Copy, Debug, PartialEq, Eq)]
pub struct Estimate {
    pub counter: ElementId,
    /// Under which the estimate is appended to a record.
    pub element: ElementId,
}

/// Which estimates are wanted.
#[derive(Debug, Drop)]
pub struct Estimates {
    pub keys: Vec<Estimate>,
}

/// Appends the estimate of each counter to a record's fields, in 8 octets, if some are wanted: the counter times the
/// rate that the fields say, rounded down, and the counter itself where they say none. There is none of a counter that
/// the record lacks, nor one of 2^64 or more. What the record says of an estimate's element by itself is removed. At an
/// `Err` some estimates may have been appended.
pub fn append_estimates(
    alloc: Global,
    wanted: Option<&Estimates>,
    fields: &mut Fields,
) -> Result<(), AllocError>
    ensures ok { OnOk result (fields.new ≡ estimates.if_estimated wanted.entry fields.old) }
    ensures none { wanted.entry ≡ None → IsOk result }
{
    match wanted {
        Some(wanted) => append_each(alloc, &wanted.keys, fields),
        None => Ok(()),
    }
}

/// Whether an estimate of a record with these fields would be 2^64 or more.
pub fn has_too_large(wanted: Option<&Estimates>, fields: &Fields) -> bool
    ensures { result ≡ estimates.is_too_large_for wanted.entry fields.now }
{
    match wanted {
        Some(wanted) => is_any_too_large(&wanted.keys, fields),
        None => false,
    }
}

fn is_any_too_large(keys: &[Estimate], fields: &Fields) -> bool
    ensures { result ≡ estimates.has_too_large keys.now fields.now }
{
    keys.iter()
        .any(|key| is_too_large(estimate_of(key.counter, fields)))
}

fn append_each(alloc: Global, mut keys: &[Estimate], fields: &mut Fields) -> Result<(), AllocError>
    ensures { OnOk result (fields.new ≡ estimates.with_each keys.entry.now fields.old) }
{
    while let [key, rest @ ..] = keys {
        append_one(alloc, *key, fields)?;
        keys = rest;
    }
    Ok(())
}

// Appends the estimate of a counter, in place of what the record says of its element.
fn append_one(alloc: Global, key: Estimate, fields: &mut Fields) -> Result<(), AllocError>
    ensures { OnOk result (fields.new ≡ estimates.with_estimate key fields.old) }
{
    let estimate = estimate_of(key.counter, fields);
    remove(alloc, key.element, fields)?;
    append_field(key.element, estimate, fields)
}

// Appends an estimate, if it has a place in 8 octets.
fn append_field(
    element: ElementId,
    estimate: Option<u128>,
    fields: &mut Fields,
) -> Result<(), AllocError>
    ensures { OnOk result (fields.new ≡ fields.old ++ estimates.estimate_field element estimate) }
{
    match estimate {
        Some(number) if number < FIRST_TOO_LARGE => {
            fields.push(element, &(number as u64).to_be_bytes())
        }
        _ => Ok(()),
    }
}

// Whether an estimate has no place in 8 octets.
fn is_too_large(estimate: Option<u128>) -> bool
    ensures { result ≡ estimates.is_too_large estimate }
{
    match estimate {
        Some(number) => number >= FIRST_TOO_LARGE,
        None => false,
    }
}

// The estimate of a counter, if the record has it.
fn estimate_of(counter: ElementId, fields: &Fields) -> Option<u128>
    ensures { result ≡ estimates.estimate_of counter fields.now }
{
    let number = read_number(COUNTER_KIND, fields.find(counter)?)?;
    Some(scaled(rate_of(fields), number))
}

// The estimate of a number.
fn scaled(rate: Option<Rate>, number: u64) -> u128
    ensures { result ≡ estimates.estimate rate number }
{
    match rate {
        Some(rate) if rate.selected > 0 => product(number, rate.population)
            / u128::from(rate.selected),
        _ => u128::from(number),
    }
}

fn product(a: u64, b: u64) -> u128
    ensures { result ≡ a * b }
{
    u128::from(a) * u128::from(b)
}
