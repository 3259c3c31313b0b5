//! Options records that are kept of a session (RFC 7011, section 3.4.2).

ghost use Rattle.std.specs.Prelude.{◌≡◌, ◌∷◌, [], IfOk, OnOk};
ghost use Rattle.std.specs.Option.{option_map};
ghost use Rattle.recording_files.specs.Histories.{OkByHistory, OnOkFor};
ghost use Rattle.recording_files.specs.KeptOptions as options;
ghost use Rattle.recording_files.specs.KeptOptions.{AllKept, short_under};

use crate::record_octets::append_record;
use exporter_options::{Told, told_by};
use ipfix_message::{DataRecord, Domains, TemplateInForce};
use std::alloc::{AllocError, Global};
use std::marker::Model;

/// How many options records are kept of a session. Of more, the oldest are forgotten.
pub const MOST_KEPT: usize = 256;

/// How many fields an options record has at most that is kept.
pub const MOST_FIELDS: usize = 64;

/// How many octets an options record has at most that is kept.
pub const MOST_OCTETS: usize = 512;

/// An options record that is kept: its octets, under the template that describes it.
#[derive(Drop)]
pub struct KeptOptions {
    /// The domain of its message.
    pub domain: u32,
    /// Its template.
    pub template: TemplateInForce,
    /// Its octets.
    pub octets: Vec<u8>,
    /// What it tells.
    pub told: Told,
}

impl Model for KeptOptions {
    ghost use Rattle.std.specs.Prelude.{◌≤◌, length};
    ghost use Rattle.recording_files.specs.KeptOptions.{Kept};
    ghost use Rattle.recording_files.specs.declared.kept_options.TheConstants.{MOST_OCTETS};

    ghost Value = { Kept };

    ghost view = { λ k. record {
      domain = k.domain;
      template = k.template;
      octets = k.octets.items;
      told = k.told;
    } };

    ghost invariant = { λ k. length k.octets.items ≤ MOST_OCTETS };
}

// Whether it tells when the exporter was started, or how it samples.
fn tells_some(told: &Told) -> bool
    ensures { result ≡ options.tells_some told.now }
{
    told.init_time.is_some() || told.sampling.is_some()
}

// Whether a newer record tells all again that an older one told of its domain.
fn tells_again(new: &Told, old: &Told) -> bool
    ensures { result ≡ options.tells_again new.now old.now }
{
    if new.domain != old.domain {
        return false;
    }
    if old.init_time.is_some() && new.init_time.is_none() {
        return false;
    }
    old.sampling.is_none() || (new.sampling.is_some() && new.selector == old.selector)
}

// The octets of a record under its template, if the template describes it and it is short.
fn octets_under(
    alloc: Global,
    template: &TemplateInForce,
    item: &DataRecord,
) -> Result<Option<Vec<u8>>, AllocError>
    ensures { IfOk result (λ text. option_map (λ w. w.items) text
        ≡ short_under item.now template.now) }
{
    let described_by = template.template();
    if described_by.scope != item.scope || described_by.specs.len() > MOST_FIELDS {
        return Ok(None);
    }
    let mut octets = Vec::new(alloc);
    if !append_record(described_by.specs.as_slice(), &item.fields, &mut octets)? {
        return Ok(None);
    }
    if octets.len() > MOST_OCTETS {
        return Ok(None);
    }
    Ok(Some(octets))
}

// What is kept of a record that tells this.
fn kept_telling(
    alloc: Global,
    domains: &Domains,
    item: &DataRecord,
    told: Told,
) -> Result<Option<KeptOptions>, AllocError>
    ensures { OkByHistory domains.now (λ ds. options.kept_telling ds item.now told) result }
{
    if !tells_some(&told) {
        return Ok(None);
    }
    let Some(templates) = domains.templates(item.domain) else {
        return Ok(None);
    };
    let Some(template) = templates.get(&item.template) else {
        return Ok(None);
    };
    let Some(octets) = octets_under(alloc, template, item)? else {
        return Ok(None);
    };
    Ok(Some(KeptOptions {
        domain: item.domain,
        template: template.clone()?,
        octets,
        told,
    }))
}

// What is kept of a record of a message after which these are the domains. One that is no options record costs a look at
// its scope.
fn kept_of(
    alloc: Global,
    domains: &Domains,
    item: &DataRecord,
) -> Result<Option<KeptOptions>, AllocError>
    ensures { OkByHistory domains.now (λ ds. options.kept_of ds item.now) result }
{
    match told_by(item) {
        Some(told) => kept_telling(alloc, domains, item, told),
        None => Ok(None),
    }
}

// Forgets the oldest, where there are as many as are kept.
fn make_room(kept: &mut Vec<KeptOptions>)
    ensures { kept.new.items ≡ options.with_room kept.old.items }
{
    if kept.len() < MOST_KEPT {
        return;
    }
    let _oldest = kept.remove(0);
}

// Keeps one more.
fn keep(kept: &mut Vec<KeptOptions>, new: KeptOptions) -> Result<(), AllocError>
    ensures { OnOk result (kept.new.items ≡ options.keep new kept.old.items) }
{
    let told = new.told;
    kept.retain(|old| !tells_again(&told, &old.told));
    make_room(kept);
    kept.push(new)?;
    Ok(())
}

// Keeps a record of a message after which these are the domains, if it is to be kept.
fn keep_one(
    alloc: Global,
    domains: &Domains,
    item: &DataRecord,
    kept: &mut Vec<KeptOptions>,
) -> Result<(), AllocError>
    ensures { OnOkFor domains.now result
        (AllKept (item.now ∷ []) kept.old.items kept.new.items) }
{
    match kept_of(alloc, domains, item)? {
        Some(new) => keep(kept, new),
        None => Ok(()),
    }
}

/// Keeps the options records of a message, after which these are the domains.
pub fn keep_options(
    alloc: Global,
    domains: &Domains,
    records: &[DataRecord],
    kept: &mut Vec<KeptOptions>,
) -> Result<(), AllocError>
    ensures { OnOkFor domains.now result (AllKept records.now kept.old.items kept.new.items) }
{
    let mut left = records;
    while let Some((item, others)) = left.split_first() {
        keep_one(alloc, domains, item, kept)?;
        left = others;
    }
    Ok(())
}
