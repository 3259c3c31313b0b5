//! What an earlier run left of a peer, by its last file.

ghost use Rattle.std.specs.Prelude.{◌≡◌, ℕ, nat_eq, None, OnOk, IfOk, IsSome};
ghost use Rattle.std.specs.Option.{ForSome};
ghost use Rattle.indexmap.specs.IndexMap.{get as index_get};
ghost use Rattle.recording_resumption.specs.EarlierFiles.{HasDomain, HasTemplates, LeavesEach, LeavesNone, LeftBy};

use crate::earlier::Earlier;
use crate::earlier_domain::{EarlierDomain, EarlierDomains};
use crate::earlier_session::EarlierSession;
use crate::last_message::LastMessage;
use indexmap::IndexMap;
use ipfix_message::{Domains, Templates};
use std::alloc::{AllocError, Global};
use std::collections::BTreeMap;

// The templates that are in force in a domain at the end.
fn templates_left(alloc: Global, domains: &Domains, domain: u32) -> Result<Templates, AllocError>
    ensures { IfOk result (HasTemplates domains.now domain) }
{
    match domains.templates(domain) {
        Some(templates) => templates.clone(),
        None => Ok(BTreeMap::new(alloc)),
    }
}

// Puts a domain among those that are left, if it has a last message.
fn put_domain(
    alloc: Global,
    last: &IndexMap<u32, LastMessage>,
    domains: &Domains,
    domain: u32,
    left: &mut EarlierDomains,
) -> Result<(), AllocError>
    ensures only { LeftBy last.now domains.now left.old
        → OnOk result (LeftBy last.now domains.now left.new) }
    ensures put { IsSome (index_get nat_eq last.now domain)
        → OnOk result (HasDomain left.new domain) }
    ensures others { OnOk result ((q : ℕ) → HasDomain left.old q → HasDomain left.new q) }
{
    let Some(message) = last.get(&domain) else {
        return Ok(());
    };
    let templates = templates_left(alloc, domains, domain)?;
    let state = Earlier::new(*message);
    left.insert(domain, EarlierDomain { state, templates })?;
    Ok(())
}

/// The domains that are left by what an earlier run's last file of a peer has: those with a message in it, each with the
/// templates that are in force at its end. None is left if a message of it has a fault. Each waits after its last message.
pub fn domains_left(alloc: Global, session: &EarlierSession) -> Result<EarlierDomains, AllocError>
    ensures none { session.now.full.domains ≡ None → IfOk result LeavesNone }
    ensures only { ForSome session.now.full.domains
        (λ d. IfOk result (LeftBy session.now.last d)) }
    ensures each { ForSome session.now.full.domains
        (λ _. IfOk result (LeavesEach session.now.last)) }
{
    let mut left = BTreeMap::new(alloc);
    let Some(domains) = &session.full.domains else {
        return Ok(left);
    };
    for domain in session.last.keys() {
        put_domain(alloc, &session.last, domains, *domain, &mut left)?;
    }
    Ok(left)
}
