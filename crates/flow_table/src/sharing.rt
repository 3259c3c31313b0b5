//! How a flow's counters are shared among intervals.

ghost use Rattle.std.specs.Prelude.{◌≡◌, ℕ, ◌+◌, ◌-◌, ◌*◌, ◌/◌, ◌%◌, ◌≤◌, ◌<◌, ◌^◌, nat_lt, IsTrue, OnOk, if◌then◌else◌};
ghost use Rattle.std.specs.List.{range_with_len};
ghost use Rattle.flow_table.specs.Flows.{AreShares, HasIntervals};
ghost use Rattle.flow_table.specs.Intervals.{covers, interval_of, share as share_in, whole_share as whole_share_in, uniform_share as uniform_share_in, proportional_share as proportional_share_in, due_before as due_before_in};
ghost use Rattle.flow_table.specs.Plans.{IsPlan};

use crate::flow::Flow;
use crate::method::Method;
use crate::plan::Plan;
use crate::span::Span;
use std::alloc::AllocError;

/// What an interval gets of a counter's value of a flow from `start` to `end` (RFC 7015, section
/// 5.1.1). It is 0 for an interval that gets nothing.
///
/// `start` and `end` are milliseconds since 1970-01-01 UTC, below 2^50. `interval` is the interval's
/// number, counted from 0 at that time.
pub fn share(plan: &Plan, start: u64, end: u64, value: u64, interval: u64) -> u64
    requires order { start ≤ end }
    requires small { end < 2 ^ 50 }
    ensures { result ≡ share_in plan.now start end value interval }
{
    share_of(plan, Span { start, end }, value, interval)
}

// What an interval gets of the counter of a flow.
fn share_of(plan: &Plan, span: Span, value: u64, interval: u64) -> u64
    ensures { result ≡ share_in plan.now span.start span.end value interval }
{
    let length = u64::from(plan.length());
    let Span { start, end } = span;
    match plan.method() {
        Method::Start => whole_share(start / length, value, interval),
        Method::End => whole_share(end / length, value, interval),
        Method::Mid => whole_share((start + end) / 2 / length, value, interval),
        Method::Uniform => uniform_share(length, span, value, interval),
        Method::Proportional => proportional_share(length, span, value, interval),
    }
}

// What one of the intervals of a flow gets of its counter.
fn share_at(plan: &Plan, flow: Flow, value: u64, interval: u64) -> u64
    requires sound { IsPlan plan.now }
    requires intervals { HasIntervals plan.now flow }
    requires within { (flow.first ≤ interval) × (interval < flow.first + flow.count) }
    ensures { result ≡ share_in plan.now flow.span.start flow.span.end value interval }
{
    match plan.method() {
        Method::Uniform => even_share(flow.count, value, interval - flow.first),
        _ => share_of(plan, flow.span, value, interval),
    }
}

/// Leaves in `shares` what one of the intervals of a flow gets of its counters, unless it is the only one,
/// which gets all.
pub(crate) fn read_shares(
    plan: &Plan,
    flow: Flow,
    counters: &[u64],
    interval: u64,
    shares: &mut Vec<u64>,
) -> Result<(), AllocError>
    requires sound { IsPlan plan.now }
    requires intervals { HasIntervals plan.now flow }
    requires within { (flow.first ≤ interval) × (interval < flow.first + flow.count) }
    ensures { OnOk result (AreShares plan.now flow counters.now interval shares.new.items) }
{
    if flow.count == 1 {
        return Ok(());
    }
    shares.clear();
    for value in counters {
        shares.push(share_at(plan, flow, *value, interval))?;
    }
    Ok(())
}

// Whether a time is in an interval.
fn is_in(time: u64, length: u64, interval: u64) -> bool
    ensures { IsTrue result → (interval * length ≤ time) × (time < (interval + 1) * length) }
{
    match interval.checked_mul(length) {
        Some(begin) => begin <= time && time - begin < length,
        None => false,
    }
}

// The interval of a time. A guess is tried first: flows mostly begin in the interval of the one before,
// and to divide takes a processor much longer than to multiply.
#[tactic(auto, using(crate::proofs::Dues::interval_is))]
fn interval_at(time: u64, length: u64, guess: u64) -> u64
    requires { 0 < length }
    ensures { result ≡ interval_of length time }
{
    if is_in(time, length, guess) {
        guess
    } else {
        time / length
    }
}

/// The intervals that a flow contributes to: the first, and how many there are, one after another. A
/// guess of the first is tried first.
#[inline(always)]
pub(crate) fn covered(plan: &Plan, span: Span, guess: u64) -> (u64, u64)
    ensures covers { covers plan.now span.start span.end ≡ range_with_len result.0 result.1 }
    ensures fits { result.0 + result.1 < 2 ^ 64 }
    // One alone gets all of each counter.
    ensures alone { result.1 ≡ 1
        → (n : ℕ) → share_in plan.now span.start span.end n result.0 ≡ n }
{
    let length = u64::from(plan.length());
    let Span { start, end } = span;
    match plan.method() {
        Method::Start => (interval_at(start, length, guess), 1),
        Method::End => (interval_at(end, length, guess), 1),
        Method::Mid => (interval_at((start + end) / 2, length, guess), 1),
        Method::Uniform | Method::Proportional => {
            let low = interval_at(start, length, guess);
            (low, interval_at(end, length, low) - low + 1)
        }
    }
}

// All to one interval.
fn whole_share(one: u64, value: u64, interval: u64) -> u64
    ensures { result ≡ whole_share_in one value interval }
{
    if interval == one { value } else { 0 }
}

// The same to each of so many intervals, and 1 more to the earliest ones until nothing is left.
fn even_share(count: u64, value: u64, place: u64) -> u64
    requires { 0 < count }
    ensures { result ≡ value / count + (if nat_lt place (value % count) then 1 else 0) }
{
    value / count + u64::from(place < value % count)
}

// That to each covered interval.
fn uniform_share(length: u64, span: Span, value: u64, interval: u64) -> u64
    requires { 0 < length }
    ensures { result ≡ uniform_share_in length span.start span.end value interval }
{
    let low = span.start / length;
    let high = span.end / length;
    if interval < low || high < interval {
        return 0;
    }
    even_share(high - low + 1, value, interval - low)
}

// What is due at the end of the interval and not yet at its begin.
#[tactic(auto, using(crate::proofs::Dues::due_grows))]
fn proportional_share(length: u64, span: Span, value: u64, interval: u64) -> u64
    requires { length < 2 ^ 32 }
    ensures { result ≡ proportional_share_in length span.start span.end value interval }
{
    let end = due_before(length, span, value, u128::from(interval) + 1);
    let begin = due_before(length, span, value, u128::from(interval));
    end - begin
}

// What is due of the counter when the milliseconds of the flow before the interval are over.
fn due_before(length: u64, span: Span, value: u64, interval: u128) -> u64
    requires length { length < 2 ^ 32 }
    requires interval { interval ≤ 2 ^ 64 }
    ensures value { result ≡ due_before_in length span.start span.end value interval }
{
    let duration = span.end - span.start + 1;
    let begin = interval * u128::from(length);
    let milliseconds = begin
        .saturating_sub(u128::from(span.start))
        .min(u128::from(duration));
    part_of(value, milliseconds as u64, duration)
}

// What so many parts of a value are, where all of them make it up. None and all cost no division, and it
// takes a processor much longer to divide a number of 128 bits than one of 64.
fn part_of(value: u64, parts: u64, all: u64) -> u64
    requires some { 0 < all }
    requires within { parts ≤ all }
    ensures { result ≡ value * parts / all }
{
    if parts == 0 {
        return 0;
    }
    if parts == all {
        return value;
    }
    match value.checked_mul(parts) {
        Some(product) => product / all,
        None => (u128::from(value) * u128::from(parts) / u128::from(all)) as u64,
    }
}
