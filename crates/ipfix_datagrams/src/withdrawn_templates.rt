//! The templates of a peer that were withdrawn in its files, and that are known over UDP.

ghost use Rattle.std.specs.Prelude.{◌≡◌, ℕ, OnOk, is_some, None};
ghost use Rattle.std.specs.BTreeMap.{get};
ghost use Rattle.std.specs.Ordering.{nat_cmp};
ghost use Rattle.ipfix_datagrams.specs.Attempts.{PutsEnded};
ghost use Rattle.ipfix_datagrams.specs.Datagrams.{KeepsKnown, KeepsWithdrawn, WeighAfter, template_at, template_of, unless_some};
ghost use Rattle.ipfix_datagrams.specs.Entries.{Holds, PutsAt, PutsIn};
ghost use Rattle.ipfix_datagrams.specs.Late.{KeepsAfter};
ghost use Rattle.ipfix_datagrams.specs.Readings.{ReadSo};

use crate::definition_times::keep_times;
use crate::known_templates::{KnownTemplates, drop_defined};
use crate::moment::Moment;
use crate::reading::DatagramReading;
use crate::weighing::keep_weights;
use ipfix_message::{Domains, Templates};
use std::alloc::{AllocError, Global};
use std::collections::BTreeMap;

/// The templates of each domain that withdrawals ended in the files, by id. A domain that has none is not
/// among them.
pub type WithdrawnTemplates = BTreeMap<u32, Templates>;

/// Whether an id has a template.
pub fn has_id(templates: Option<&Templates>, id: u16) -> bool
    ensures { result ≡ is_some (template_of templates.entry id) }
{
    match templates {
        Some(templates) => templates.contains_key(&id),
        None => false,
    }
}

// Puts those templates that are not in force after a datagram among others.
fn put_ended(
    ended: &Templates,
    after: Option<&Templates>,
    kept: &mut Templates,
) -> Result<(), AllocError>
    ensures { OnOk result (PutsEnded kept.old kept.new after.entry (get nat_cmp ended.now)) }
{
    for id in ended.keys() {
        if !has_id(after, *id) {
            put_one(ended, *id, kept)?;
        }
    }
    Ok(())
}

// Puts a template among others.
fn put_one(ended: &Templates, id: u16, kept: &mut Templates) -> Result<(), AllocError>
    ensures { OnOk result (PutsAt kept.old kept.new id (get nat_cmp ended.now)) }
{
    let Some(known) = ended.get(&id) else {
        return Ok(());
    };
    kept.insert(id, known.clone()?)?;
    Ok(())
}

// Puts those among others that were in force before a datagram, if any were, and are not after it.
fn put_before(
    before: Option<&Templates>,
    after: Option<&Templates>,
    kept: &mut Templates,
) -> Result<(), AllocError>
    ensures { OnOk result (PutsEnded kept.old kept.new after.entry (template_of before.entry)) }
{
    match before {
        Some(before) => put_ended(before, after, kept),
        None => Ok(()),
    }
}

// Leaves only those that are not in force.
fn drop_known(after: Option<&Templates>, kept: &mut Templates)
    ensures { Holds kept.new (λ q. unless_some (template_of after.entry q) (get nat_cmp kept.old q)) }
{
    kept.retain(|id, _| !has_id(after, *id));
}

// Those of a domain, which are taken out.
fn take_out(alloc: Global, withdrawn: &mut WithdrawnTemplates, domain: u32) -> Templates
    ensures kept { Holds result (template_at withdrawn.old domain) }
    ensures others { PutsIn withdrawn.old withdrawn.new domain (λ _. None) }
{
    match withdrawn.remove(&domain) {
        Some(templates) => templates,
        None => BTreeMap::new(alloc),
    }
}

// Puts those of a domain that has none among them.
fn put_back(
    templates: Templates,
    withdrawn: &mut WithdrawnTemplates,
    domain: u32,
) -> Result<(), AllocError>
    requires { (id : ℕ) → template_at withdrawn.old domain id ≡ None }
    ensures { OnOk result (PutsIn withdrawn.old withdrawn.new domain (get nat_cmp templates)) }
{
    if templates.is_empty() {
        return Ok(());
    }
    withdrawn.insert(domain, templates)?;
    Ok(())
}

// Keeps, where a datagram is taken as its reading says, the templates that are withdrawn in the files after
// it, and that are known over UDP. Out of memory, what is kept is of no use.
fn keep_withdrawn(
    alloc: Global,
    withdrawn: &mut WithdrawnTemplates,
    domains: &Domains,
    domain: u32,
    reading: &DatagramReading,
) -> Result<(), AllocError>
    ensures { (s : ReadSo domains.now domain reading.now)
        → KeepsWithdrawn withdrawn.old s.history
        → OnOk result (KeepsWithdrawn withdrawn.new s.given.domains) }
{
    let Some(domain_after) = &reading.after else {
        return Ok(());
    };
    let after = domain_after.templates(domain);
    let mut kept = take_out(alloc, withdrawn, domain);
    put_before(domains.templates(domain), after, &mut kept)?;
    put_ended(&reading.defined, after, &mut kept)?;
    put_ended(&reading.definitions, after, &mut kept)?;
    drop_known(after, &mut kept);
    put_back(kept, withdrawn, domain)
}

/// Keeps, where a datagram is taken as its reading says, what is known of the peer's templates after it beside those that are in
/// force in the files. `domains` are those of the files before it, and `domain` is that of the
/// datagram, which was taken `now`. Out of memory, what is kept is of no use.
pub fn keep_known(
    alloc: Global,
    known: &mut KnownTemplates,
    domains: &Domains,
    domain: u32,
    now: Moment,
    reading: &DatagramReading,
) -> Result<(), AllocError>
    ensures { (s : ReadSo domains.now domain reading.now) → KeepsKnown known.old s.history
        → WeighAfter reading.now.weights known.old.budget s.history s.given.domains
        → OnOk result (KeepsAfter known.old known.new s.history s.datagram now s.given) }
{
    keep_times(
        alloc,
        &mut known.times,
        domain,
        &reading.definitions,
        domains.templates(domain),
        known.withdrawn.get(&domain),
        now,
    )?;
    keep_withdrawn(alloc, &mut known.withdrawn, domains, domain, reading)?;
    keep_weights(&mut known.weights, &reading.weights)?;
    drop_defined(alloc, &mut known.barred, domain, &reading.definitions)?;
    Ok(())
}
