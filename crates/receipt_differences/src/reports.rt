//! An order of what the sessions of inputs gave.

ghost use Rattle.std.specs.Prelude.{◌≡◌};
ghost use Rattle.std.specs.Cmp.Lexicographic.{slice_cmp};
ghost use Rattle.table_receipts.specs.Values.{fault_value, input_value};
ghost use Rattle.receipt_differences.specs.Orders.{domain_cmp, fault_cmp, report_cmp};

use std::cmp::Ordering;
use table_receipts::{DomainReceipt, InputReceipt};

/// Which of two inputs comes first by what their sessions gave: those whose sessions gave the same are equal.
pub fn by_report(input: &InputReceipt, other: &InputReceipt) -> Ordering
    ensures { result ≡ report_cmp (input_value input.now) (input_value other.now) }
{
    let faults = by_fault(&input.fault, &other.fault);
    let sessions = faults.then(by_domains(&input.domains, &other.domains));
    let records = input.records.cmp(&other.records).then(sessions);
    input.messages.cmp(&other.messages).then(records)
}

fn by_fault(fault: &Option<String>, other: &Option<String>) -> Ordering
    ensures { result ≡ fault_cmp (fault_value fault.now) (fault_value other.now) }
{
    match (fault, other) {
        (None, None) => Ordering::Equal,
        (None, Some(_)) => Ordering::Less,
        (Some(_), None) => Ordering::Greater,
        (Some(name), Some(other)) => name.as_str().cmp(other.as_str()),
    }
}

fn by_domains(domains: &[DomainReceipt], others: &[DomainReceipt]) -> Ordering
    ensures { result ≡ slice_cmp domain_cmp domains.now others.now }
{
    let mut left = domains;
    let mut rest = others;
    while let Some((domain, later)) = left.split_first() {
        let Some((other, after)) = rest.split_first() else {
            return Ordering::Greater;
        };
        let order = by_domain(domain, other);
        if order.is_ne() {
            return order;
        }
        left = later;
        rest = after;
    }
    if rest.is_empty() {
        Ordering::Equal
    } else {
        Ordering::Less
    }
}

fn by_domain(domain: &DomainReceipt, other: &DomainReceipt) -> Ordering
    ensures { result ≡ domain_cmp domain.now other.now }
{
    let sets = domain.unknown_sets.cmp(&other.unknown_sets);
    let unaccounted = domain.unaccounted.cmp(&other.unaccounted).then(sets);
    let backward = domain.backward.cmp(&other.backward).then(unaccounted);
    let lost = domain.lost.cmp(&other.lost).then(backward);
    domain.domain.cmp(&other.domain).then(lost)
}
