//! When the templates of a peer were defined.

ghost use Rattle.std.specs.Prelude.{◌≡◌, ◌==◌, ℕ, false, OnOk, option_copied};
ghost use Rattle.std.specs.BTreeMap.{get};
ghost use Rattle.std.specs.Ordering.{nat_cmp};
ghost use Rattle.ipfix_datagrams.specs.Entries.{Holds, Puts, PutsAt, PutsIn};
ghost use Rattle.ipfix_datagrams.specs.Late as late;
ghost use Rattle.ipfix_datagrams.specs.Late.{known_as, newly, retimed_in, time_at};

use crate::changes::known_of;
use crate::moment::Moment;
use ipfix_message::{Template, TemplateInForce, Templates, is_same_template};
use std::alloc::{AllocError, Global};
use std::collections::BTreeMap;

/// When the templates of a domain were defined, by id.
pub type Times = BTreeMap<u16, Moment>;

/// For each id of each domain, the datagram that first defined the template that is known. Where that is defined again,
/// nothing changes.
pub type DefinitionTimes = BTreeMap<u32, Times>;

// Whether a template is the one that is known.
fn is_known(template: &Template, known: Option<&TemplateInForce>) -> bool
    ensures { result ≡ late.is_known template.now (option_copied known.entry) }
{
    match known {
        Some(known) => is_same_template(template, known.template()),
        None => false,
    }
}

// Notes for an id that its last definition, if it has one, was taken now, unless that is the template that is known.
fn put_time(
    id: u16,
    last: &Templates,
    known: Option<&TemplateInForce>,
    now: Moment,
    times: &mut Times,
) -> Result<(), AllocError>
    ensures { OnOk result (PutsAt times.old times.new id
        (λ _. newly (option_copied known.entry) (get nat_cmp last.now id) now)) }
{
    let Some(template) = last.get(&id) else {
        return Ok(());
    };
    if is_known(template.template(), known) {
        return Ok(());
    }
    times.insert(id, now)?;
    Ok(())
}

// And so for each id.
fn put_times(
    last: &Templates,
    in_force: Option<&Templates>,
    withdrawn: Option<&Templates>,
    now: Moment,
    times: &mut Times,
) -> Result<(), AllocError>
    ensures { let known = known_as in_force.entry withdrawn.entry in
        OnOk result (Puts times.old times.new (λ q. newly (known q) (get nat_cmp last.now q) now)) }
{
    for id in last.keys() {
        let known = known_of(*id, in_force, withdrawn);
        put_time(*id, last, known, now, times)?;
    }
    Ok(())
}

// Those of a domain, which are taken out.
fn take_times(alloc: Global, all: &mut DefinitionTimes, domain: u32) -> Times
    ensures kept { Holds result (time_at all.old domain) }
    ensures others { (q id : ℕ) → (q == domain) ≡ false → time_at all.new q id ≡ time_at all.old q id }
{
    match all.remove(&domain) {
        Some(own) => own,
        None => BTreeMap::new(alloc),
    }
}

// Puts those of a domain in the place of others.
fn put_own(own: Times, times: &mut DefinitionTimes, domain: u32) -> Result<(), AllocError>
    ensures { OnOk result (PutsIn times.old times.new domain (get nat_cmp own)) }
{
    times.insert(domain, own)?;
    Ok(())
}

/// Notes that the last definitions of a datagram of a domain were taken now, each unless it is the template that is known: in
/// force, or else withdrawn. Out of memory, what is kept is of no use.
pub fn keep_times(
    alloc: Global,
    times: &mut DefinitionTimes,
    domain: u32,
    last: &Templates,
    in_force: Option<&Templates>,
    withdrawn: Option<&Templates>,
    now: Moment,
) -> Result<(), AllocError>
    ensures { let known = known_as in_force.entry withdrawn.entry in
        OnOk result ((q id : ℕ) → time_at times.new q id
        ≡ retimed_in domain known (get nat_cmp last.now) now (time_at times.old) q id) }
{
    if last.is_empty() {
        return Ok(());
    }
    let mut own = take_times(alloc, times, domain);
    put_times(last, in_force, withdrawn, now, &mut own)?;
    put_own(own, times, domain)
}
