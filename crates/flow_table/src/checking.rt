//! What makes arguments no plan.

ghost use Rattle.std.specs.Prelude.{◌≡◌};
ghost use Rattle.std.specs.List.{list_all, list_any};
ghost use Rattle.flow_table.specs.Plans as plans;
ghost use Rattle.flow_table.specs.Plans.{element_in, elements_in, fault_among, same_element};

use crate::choices::{Choices, Totals};
use crate::key::{Key, KeyElements, Side};
use crate::plan::{MAX_COUNTERS, MAX_KEYS, MAX_SPREAD};
use crate::plan_fault::PlanFault;
use crate::roles::{is_prefix_of, may_be_key, may_count};
use element_registry::Elements;
use ipfix_wire::ElementId;

// Whether the elements of all keys may be keys.
fn are_keys(which: KeyElements, elements: &Elements, keys: &[Key]) -> bool
    ensures { result ≡ list_all (λ k. plans.may_be_key which elements.now k.element) keys.now }
{
    keys.iter()
        .all(|key| may_be_key(which, elements, key.element))
}

// Whether the elements of all keys may have their prefixes.
fn have_prefixes(keys: &[Key]) -> bool
    ensures { result ≡ list_all (λ k. plans.is_prefix_of k.element k.prefix) keys.now }
{
    keys.iter().all(|key| is_prefix_of(key.element, key.prefix))
}

fn are_counters(elements: &Elements, totals: Totals, counters: &[ElementId]) -> bool
    ensures { result ≡ list_all (plans.may_count elements.now totals) counters.now }
{
    counters
        .iter()
        .all(|counter| may_count(elements, totals, *counter))
}

fn has_twice(mut elements: &[ElementId]) -> bool
    ensures { result ≡ plans.has_twice elements.entry.now }
{
    while let [element, rest @ ..] = elements {
        if rest.contains(element) {
            return true;
        }
        elements = rest;
    }
    false
}

// Whether the element is that of a key on that side.
fn is_among_keys(element: ElementId, keys: &[Key], side: Side) -> bool
    ensures { result ≡ list_any (λ k. same_element (element_in side k) element) keys.now }
{
    keys.iter().any(|key| key.element_in(side) == element)
}

// Whether the element is that of a key on that side, or a counter.
fn is_among(element: ElementId, keys: &[Key], counters: &[ElementId], side: Side) -> bool
    ensures { result ≡ plans.is_among element (elements_in side keys.now counters.now) }
{
    is_among_keys(element, keys, side) || counters.contains(&element)
}

// Whether an element stands twice among keys and counters on that side.
fn is_repeated(mut keys: &[Key], counters: &[ElementId], side: Side) -> bool
    ensures { result ≡ plans.has_twice (elements_in side keys.entry.now counters.now) }
{
    while let [key, rest @ ..] = keys {
        if is_among(key.element_in(side), rest, counters, side) {
            return true;
        }
        keys = rest;
    }
    has_twice(counters)
}

fn key_fault(which: KeyElements, elements: &Elements, keys: &[Key]) -> Option<PlanFault>
    ensures { result ≡ plans.key_fault which elements.now keys.now }
{
    if keys.len() > MAX_KEYS {
        return Some(PlanFault::KeyCount);
    }
    if !are_keys(which, elements, keys) {
        return Some(PlanFault::KeyKind);
    }
    if !have_prefixes(keys) {
        return Some(PlanFault::Prefix);
    }
    None
}

fn counter_fault(elements: &Elements, totals: Totals, counters: &[ElementId]) -> Option<PlanFault>
    ensures { result ≡ plans.counter_fault elements.now totals counters.now }
{
    if counters.is_empty() || counters.len() > MAX_COUNTERS {
        return Some(PlanFault::CounterCount);
    }
    if !are_counters(elements, totals, counters) {
        return Some(PlanFault::CounterKind);
    }
    None
}

/// The first fault that fits the arguments of a plan, where these elements may be keys.
pub fn first_fault(
    which: KeyElements,
    elements: &Elements,
    length: u32,
    keys: &[Key],
    counters: &[ElementId],
    max_spread: u32,
    choices: Choices,
) -> Option<PlanFault>
    ensures { result
        ≡ fault_among which elements.now choices length keys.now counters.now max_spread }
{
    if length == 0 {
        return Some(PlanFault::Length);
    }
    if max_spread == 0 || max_spread > MAX_SPREAD {
        return Some(PlanFault::Spread);
    }
    if let Some(fault) = key_fault(which, elements, keys) {
        return Some(fault);
    }
    if let Some(fault) = counter_fault(elements, choices.totals, counters) {
        return Some(fault);
    }
    if is_repeated(keys, counters, Side::Read) || is_repeated(keys, counters, Side::Exported) {
        return Some(PlanFault::Repeated);
    }
    None
}
