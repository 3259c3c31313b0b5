//! Estimates in place of counters.

ghost use Rattle.std.specs.Prelude.{◌≡◌, ◌++◌, map, IfOk, OnOk};
ghost use Rattle.flow_plan_fields.specs.Scaled as scaled_plans;

use crate::named::EXAMPLES_PEN;
use flow_estimates::Estimate;
use ipfix_wire::ElementId;
use std::alloc::{AllocError, Global};

/// Number of deltaFlowCount.
const FLOW_COUNT_NUMBER: u16 = 3;

/// The number of a counter's estimate is greater than its own by this.
const FIRST_NUMBER: u16 = 1000;

/// From this number on a counter has no estimate: elements have numbers of 15 bits (RFC 7011, section 3.2).
const FIRST_WITHOUT: u16 = (1 << 15) - FIRST_NUMBER;

// Whether a counter is a number of flows, which is not scaled.
fn stays(counter: ElementId) -> bool
    ensures { result ≡ scaled_plans.stays counter }
{
    counter == ElementId::iana(FLOW_COUNT_NUMBER)
}

fn is_estimable(counter: ElementId) -> bool
    ensures { result ≡ scaled_plans.is_estimable counter }
{
    stays(counter) || (counter.pen == 0 && counter.number < FIRST_WITHOUT)
}

/// Whether each counter is one of IANA's whose number leaves room for that of its estimate.
pub fn are_estimable(counters: &[ElementId]) -> bool
    ensures { result ≡ scaled_plans.are_estimable counters.now }
{
    counters.iter().all(|counter| is_estimable(*counter))
}

/// The element of the estimate of a counter that is one of IANA's.
pub fn estimated(counter: ElementId) -> ElementId
    ensures { result ≡ scaled_plans.estimated counter }
{
    ElementId {
        pen: EXAMPLES_PEN,
        number: counter.number.wrapping_add(FIRST_NUMBER),
    }
}

// What a plan counts in place of a counter.
fn scaled(counter: ElementId) -> ElementId
    ensures { result ≡ scaled_plans.scaled counter }
{
    if stays(counter) {
        counter
    } else {
        estimated(counter)
    }
}

/// What a plan counts in place of its counters.
pub fn scaled_counters(
    alloc: Global,
    mut counters: &[ElementId],
) -> Result<Vec<ElementId>, AllocError>
    ensures { IfOk result (λ all. all.items ≡ map scaled_plans.scaled counters.entry.now) }
{
    let mut all = Vec::with_capacity(alloc, counters.len())?;
    while let [counter, rest @ ..] = counters {
        all.push(scaled(*counter))?;
        counters = rest;
    }
    Ok(all)
}

/// The estimates of counters.
pub fn estimates_of(alloc: Global, mut counters: &[ElementId]) -> Result<Vec<Estimate>, AllocError>
    ensures { IfOk result (λ keys. keys.items ≡ scaled_plans.estimates_of counters.entry.now) }
{
    let mut keys = Vec::new(alloc);
    while let [counter, rest @ ..] = counters {
        push_estimate(&mut keys, *counter)?;
        counters = rest;
    }
    Ok(keys)
}

// Appends the estimate of a counter that does not stay.
fn push_estimate(keys: &mut Vec<Estimate>, counter: ElementId) -> Result<(), AllocError>
    ensures { OnOk result (keys.new.items ≡ keys.old.items ++ scaled_plans.estimate_of counter) }
{
    if !stays(counter) {
        keys.push(Estimate {
            counter,
            element: estimated(counter),
        })?;
    }
    Ok(())
}
