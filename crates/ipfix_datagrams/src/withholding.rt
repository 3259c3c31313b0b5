//! A datagram that comes late doesn't replace a template that was sent after it, and its data sets aren't read under that (RFC 7011,
//! section 8.2).

ghost use Rattle.std.specs.Prelude.{◌≡◌, ◌==◌, ◌||◌, ◌&&◌, Ok, IfErr, IfOk, OnOk};
ghost use Rattle.std.specs.List.{list_any};
ghost use Rattle.ipfix_message.specs.Domains.{History, message_header};
ghost use Rattle.ipfix_datagrams.specs.Datagrams.{IfOf, barred_in};
ghost use Rattle.ipfix_datagrams.specs.Entries.{AlsoLists};
ghost use Rattle.ipfix_datagrams.specs.Late.{FailsLate, IsReadLate, later_in, time_of, withheld_from};

use crate::changes::changed;
use crate::data_sets::set_ids;
use crate::definition_times::Times;
use crate::definitions::definitions_of;
use crate::known_templates::{KnownTemplates, put_id};
use crate::moment::Moment;
use crate::reading::after_header;
use ipfix_message::{Domains, MessageFault};
use ipfix_wire::Header;
use std::alloc::{AllocError, Global};

// Whether the template of an id was sent after a datagram, and taken at most so many seconds before it.
fn is_later(times: Option<&Times>, id: u16, at: &Moment, reorder: u64) -> bool
    ensures { result ≡ later_in reorder at.now (time_of times.entry) id }
{
    let Some(times) = times else {
        return false;
    };
    let Some(defined) = times.get(&id) else {
        return false;
    };
    at.export_time < defined.export_time && at.second.saturating_sub(defined.second) <= reorder
}

fn either(one: bool, other: bool) -> bool
    ensures { result ≡ (one || other) }
{
    one || other
}

// Whether that is so of one of these ids.
fn has_later(ids: &[u16], times: Option<&Times>, at: &Moment, reorder: u64) -> bool
    ensures { result ≡ list_any (later_in reorder at.now (time_of times.entry)) ids.now }
{
    let mut found = false;
    for id in ids {
        found = either(found, is_later(times, *id, at, reorder));
    }
    found
}

// Puts an id among others, if that is so of it.
fn put_later(
    id: u16,
    times: Option<&Times>,
    at: &Moment,
    reorder: u64,
    all: &mut Vec<u16>,
) -> Result<(), AllocError>
    ensures { let is_later = later_in reorder at.now (time_of times.entry) in
        OnOk result (AlsoLists all.old.items all.new.items (λ q. id == q && is_later q)) }
{
    if is_later(times, id, at, reorder) {
        return put_id(id, all);
    }
    Ok(())
}

// The ids that have none, and those of these of which that is so.
fn with_later(
    alloc: Global,
    barred: &[u16],
    ids: &[u16],
    times: Option<&Times>,
    at: &Moment,
    reorder: u64,
) -> Result<Vec<u16>, AllocError>
    ensures { let is_later = later_in reorder at.now (time_of times.entry) in
        IfOk result (λ all. AlsoLists barred.now all.items
        (λ q. list_any (λ id. q == id) ids.now && is_later q)) }
{
    let mut all = Vec::new(alloc);
    all.extend_from_slice(barred)?;
    for id in ids {
        put_later(*id, times, at, reorder, &mut all)?;
    }
    Ok(all)
}

/// The ids that have no template before a datagram that comes late, at a second: those of its domain that have none, and those of its
/// data sets whose template was sent after it, and taken at most `known.reorder` seconds before it. One that would define such an id
/// otherwise isn't taken: the fault is `TemplateChanged`. `OutOfMemory` may come in place of any other answer.
pub fn barred_late(
    alloc: Global,
    domains: &Domains,
    known: &KnownTemplates,
    header: &Header,
    second: u64,
    datagram: &[u8],
) -> Result<Vec<u16>, MessageFault>
    requires { message_header datagram.now ≡ Ok header.now }
    ensures read { let h = header.now in (ds : History) → IfOf domains.now known.now ds
        (IfOk result (λ ids. IsReadLate (withheld_from known.now h second)
        (barred_in known.now.barred h.domain) ds datagram.now h.domain ids.items)) }
    ensures refused { let h = header.now in (ds : History) → IfOf domains.now known.now ds
        (IfErr result (FailsLate (withheld_from known.now h second) ds datagram.now h.domain)) }
{
    let sets = after_header(header, datagram);
    let definitions = definitions_of(alloc, sets)?;
    let domain = header.domain;
    let at = Moment {
        export_time: header.export_time,
        second,
    };
    let times = known.times.get(&domain);
    let changed = changed(
        alloc,
        &definitions.last,
        domains.templates(domain),
        known.withdrawn.get(&domain),
    )?;
    if has_later(&changed, times, &at, known.reorder) {
        return Err(MessageFault::TemplateChanged);
    }
    let ids = set_ids(alloc, sets)?;
    let barred = known.barred_in(domain);
    let all = with_later(alloc, barred, &ids, times, &at, known.reorder)?;
    Ok(all)
}
