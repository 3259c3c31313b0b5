//! What the templates of a peer count, beside a budget.

ghost use Rattle.std.specs.Prelude.{◌≡◌, ◌+◌, ◌≤◌, ◌<◌, Some, OnOk, IfNone, IfOk, IfSome, MatchBool, MatchOption, sum};
ghost use Rattle.std.specs.BTreeMap.{get, values, IsOrdered};
ghost use Rattle.std.specs.Ordering.{nat_cmp};
ghost use Rattle.ipfix_datagrams.specs.Datagrams.{Exceeds, Fits, KeepsKnown, known_in, template_of};
ghost use Rattle.ipfix_message.specs.declared.template_limit.TheConstants.{DOMAIN_FIELDS};
ghost use Rattle.ipfix_datagrams.specs.Attempts.{fields_by, kept_entries};
ghost use Rattle.ipfix_datagrams.specs.Entries.{Holds, Puts, PutsAt};
ghost use Rattle.ipfix_datagrams.specs.Readings.{ReadSo};

use crate::known_templates::KnownTemplates;
use crate::reading::DatagramReading;
use ipfix_message::{DOMAIN_FIELDS, Domains, Templates, count_of};
use std::alloc::{AllocError, Global};
use std::collections::BTreeMap;

/// What each domain counts.
pub type Weights = BTreeMap<u32, u64>;

// What the templates of a domain count, by id.
type Counts = BTreeMap<u16, u64>;

// Counts the template of an id, if it is there.
fn count_one(templates: &Templates, id: u16, counts: &mut Counts) -> Result<(), AllocError>
    ensures { OnOk result (PutsAt counts.old counts.new id
        (fields_by (get nat_cmp templates.now))) }
{
    let Some(known) = templates.get(&id) else {
        return Ok(());
    };
    counts.insert(id, count_of(known.template()))?;
    Ok(())
}

// Counts templates, in place of others of their ids.
fn count_all(templates: &Templates, counts: &mut Counts) -> Result<(), AllocError>
    ensures { OnOk result (Puts counts.old counts.new (fields_by (get nat_cmp templates.now))) }
{
    for id in templates.keys() {
        count_one(templates, *id, counts)?;
    }
    Ok(())
}

// And so those of a domain, if it has any.
fn count_if(templates: Option<&Templates>, counts: &mut Counts) -> Result<(), AllocError>
    ensures { OnOk result (Puts counts.old counts.new (fields_by (template_of templates.entry))) }
{
    match templates {
        Some(templates) => count_all(templates, counts),
        None => Ok(()),
    }
}

// What the templates of a domain count, if that is within a budget.
fn weigh(counts: &Counts, budget: u64) -> Option<u64>
    ensures above { IfNone result (budget < DOMAIN_FIELDS + sum (values counts.now)) }
    ensures weight { IfSome result (λ weight. weight ≡ DOMAIN_FIELDS + sum (values counts.now)) }
    ensures ordered { IsOrdered nat_cmp counts.now }
{
    let counted = counts.values();
    let mut left = budget.checked_sub(DOMAIN_FIELDS)?;
    for count in counted {
        left = left.checked_sub(*count)?;
    }
    Some(budget - left)
}

// Whether all domains count no more than a budget.
fn are_within(weights: &Weights, budget: u64) -> bool
    ensures within { let n = sum (values weights.now) in
        MatchBool result (n ≤ budget) (budget < n) }
    ensures ordered { IsOrdered nat_cmp weights.now }
{
    let weighed = weights.values();
    let mut left = budget;
    for weight in weighed {
        match left.checked_sub(*weight) {
            Some(behind) => left = behind,
            None => return false,
        }
    }
    true
}

// What the templates that are known in a domain count after a datagram that is read so.
fn counts_after(
    alloc: Global,
    known: &KnownTemplates,
    domains: &Domains,
    domain: u32,
    reading: &DatagramReading,
) -> Result<Counts, AllocError>
    ensures { (s : ReadSo domains.now domain reading.now) → KeepsKnown known.now s.history
        → IfOk result (λ counts. Holds counts (fields_by (known_in s.given.domains domain))) }
{
    let mut counts = BTreeMap::new(alloc);
    count_if(known.withdrawn.get(&domain), &mut counts)?;
    count_if(domains.templates(domain), &mut counts)?;
    count_all(&reading.defined, &mut counts)?;
    count_all(&reading.definitions, &mut counts)?;
    Ok(counts)
}

// What each domain counts, with another one or in the place of what it did.
fn with_weight(weights: &Weights, domain: u32, weight: u64) -> Result<Weights, AllocError>
    ensures { IfOk result (λ after. PutsAt weights.now after domain (λ _. Some weight)) }
{
    let mut after = weights.clone()?;
    after.insert(domain, weight)?;
    Ok(after)
}

/// What each domain counts after a datagram that is read so, in a domain that it leaves otherwise, if all count no more
/// than the budget.
pub fn weights_after(
    alloc: Global,
    known: &KnownTemplates,
    domains: &Domains,
    domain: u32,
    reading: &DatagramReading,
) -> Result<Option<Weights>, AllocError>
    ensures { (s : ReadSo domains.now domain reading.now) → KeepsKnown known.now s.history
        → IfOk result (λ weights. MatchOption weights (Exceeds known.now.budget s.given.domains)
        (λ ws. Fits known.now.budget ws.entries s.given.domains)) }
{
    let counts = counts_after(alloc, known, domains, domain, reading)?;
    let Some(weight) = weigh(&counts, known.budget) else {
        return Ok(None);
    };
    let weights = with_weight(&known.weights, domain, weight)?;
    if are_within(&weights, known.budget) {
        Ok(Some(weights))
    } else {
        Ok(None)
    }
}

/// Keeps what each domain counts then, if it isn't as it was.
pub fn keep_weights(kept: &mut Weights, after: &Option<Weights>) -> Result<(), AllocError>
    ensures { OnOk result (kept.new.entries ≡ kept_entries kept.old after.now) }
{
    if let Some(after) = after {
        *kept = after.clone()?;
    }
    Ok(())
}
