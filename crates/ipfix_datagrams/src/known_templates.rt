//! What is kept of a peer's templates beside those that are in force in its files.

ghost use Rattle.std.specs.Prelude.{◌≡◌, ◌==◌, ◌∷◌, [], ℕ, None, OnOk, IfOk, nat_eq};
ghost use Rattle.std.specs.List.{IsDistinct};
ghost use Rattle.ipfix_datagrams.specs.Attempts.{ChangesBarred, not_defined};
ghost use Rattle.ipfix_datagrams.specs.Datagrams.{Bars, KeepsKnown, barred_in};
ghost use Rattle.ipfix_datagrams.specs.Entries.{AlsoLists, Gains, is_listed};
ghost use Rattle.ipfix_datagrams.specs.Late.{time_at};

use crate::definition_times::DefinitionTimes;
use crate::weighing::Weights;
use crate::withdrawn_templates::WithdrawnTemplates;
use ipfix_message::Templates;
use std::alloc::{AllocError, Global};
use std::collections::BTreeMap;

/// The ids of each domain that have no template, since a datagram was refused that would have changed it.
pub type BarredIds = BTreeMap<u32, Vec<u16>>;

/// What is kept of a peer's templates beside those that are in force in its files, and the budget that all have.
#[derive(Drop)]
pub struct KnownTemplates {
    /// Those that withdrawals ended in the files, and that are known over UDP.
    pub withdrawn: WithdrawnTemplates,
    /// The ids that have none.
    pub barred: BarredIds,
    /// What each domain counts.
    pub weights: Weights,
    /// What all may count.
    pub budget: u64,
    /// When those that are known were defined.
    pub times: DefinitionTimes,
    /// For how many seconds a datagram that comes late and was sent before a definition doesn't replace it.
    pub reorder: u64,
}

impl KnownTemplates {
    /// None is known yet.
    pub fn new(alloc: Global, budget: u64, reorder: u64) -> Self
        ensures keeps { KeepsKnown result [] }
        ensures budget { result.budget ≡ budget }
        ensures times { (domain id : ℕ) → time_at result.times domain id ≡ None }
        ensures reorder { result.reorder ≡ reorder }
        ensures barred { (domain : ℕ) → barred_in result.barred domain ≡ [] }
    {
        KnownTemplates {
            withdrawn: BTreeMap::new(alloc),
            barred: BTreeMap::new(alloc),
            weights: BTreeMap::new(alloc),
            budget,
            times: BTreeMap::new(alloc),
            reorder,
        }
    }

    /// The ids of a domain that have none.
    pub fn barred_in(&self, domain: u32) -> &[u16]
        ensures { result.now ≡ barred_in self.now.barred domain }
    {
        ids_in(&self.barred, domain)
    }

    /// These ids of a domain have no template from now on. Without memory nothing changes.
    pub fn bar(&mut self, alloc: Global, domain: u32, ids: &[u16]) -> Result<(), AllocError>
        ensures { OnOk result (Bars self.old self.new domain ids.now) }
    {
        let all = both(alloc, self.barred_in(domain), ids)?;
        put_ids(&mut self.barred, domain, all)?;
        Ok(())
    }
}

/// Puts an id among others, unless it is one of them.
pub fn put_id(id: u16, all: &mut Vec<u16>) -> Result<(), AllocError>
    ensures once { IsDistinct nat_eq all.old.items → OnOk result (IsDistinct nat_eq all.new.items) }
    ensures puts { OnOk result (AlsoLists all.old.items all.new.items (λ q. id == q)) }
{
    if all.contains(&id) {
        return Ok(());
    }
    all.push(id)?;
    Ok(())
}

// These ids and those.
fn both(alloc: Global, ids: &[u16], more: &[u16]) -> Result<Vec<u16>, AllocError>
    ensures once { IsDistinct nat_eq ids.now → IfOk result (λ all. IsDistinct nat_eq all.items) }
    ensures both { IfOk result (λ all. AlsoLists ids.now all.items (is_listed more.now)) }
{
    let mut all = Vec::new(alloc);
    all.extend_from_slice(ids)?;
    for id in more {
        put_id(*id, &mut all)?;
    }
    Ok(all)
}

// Puts the ids of a domain in the place of others.
fn put_ids(barred: &mut BarredIds, domain: u32, ids: Vec<u16>) -> Result<(), AllocError>
    ensures { OnOk result (ChangesBarred barred.old barred.new domain (λ _. ids.items)) }
{
    barred.insert(domain, ids)?;
    Ok(())
}

// Appends an id, unless one of these templates has it.
fn push_unless(id: u16, last: &Templates, left: &mut Vec<u16>) -> Result<(), AllocError>
    ensures { OnOk result (Gains left.old left.new (not_defined last.now (id ∷ []))) }
{
    if !last.contains_key(&id) {
        left.push(id)?;
    }
    Ok(())
}

// Only the ids that none of these templates has.
fn ids_left(alloc: Global, ids: &[u16], last: &Templates) -> Result<Vec<u16>, AllocError>
    ensures { IfOk result (λ left. left.items ≡ not_defined last.now ids.now) }
{
    let mut left = Vec::new(alloc);
    for id in ids {
        push_unless(*id, last, &mut left)?;
    }
    Ok(left)
}

// The ids of a domain.
fn ids_in(barred: &BarredIds, domain: u32) -> &[u16]
    ensures { result.now ≡ barred_in barred.now domain }
{
    match barred.get(&domain) {
        Some(ids) => ids,
        None => &[],
    }
}

/// Leaves of a domain only the ids that none of these templates has.
pub fn drop_defined(
    alloc: Global,
    barred: &mut BarredIds,
    domain: u32,
    last: &Templates,
) -> Result<(), AllocError>
    ensures { OnOk result (ChangesBarred barred.old barred.new domain (not_defined last.now)) }
{
    let left = ids_left(alloc, ids_in(barred, domain), last)?;
    put_ids(barred, domain, left)?;
    Ok(())
}
