//! The head of a file: the options records that are kept of the session's earlier files, written again (RFC 7011, section 3.4.2).

ghost use Rattle.std.specs.Prelude.{◌≡◌, ◌≤◌, ◌∷◌, [], OnOk, Some, length};
ghost use Rattle.recording_files.specs.Heads as head;
ghost use Rattle.recording_files.specs.Heads.{count_at, is_written_at, stamp_before};
ghost use Rattle.recording_files.specs.Histories.{ByHistory, OnOkFor};

use crate::kept_options::KeptOptions;
use indexmap::IndexMap;
use ipfix_message::{Domains, Stamp, append_template_message, is_same_template};
use ipfix_wire::{HEADER_LENGTH, Header, SET_HEADER_LENGTH, write_header, write_set};
use std::alloc::AllocError;

// The number that a domain goes on with: that which is due, or that of the file's first message in its own domain.
fn number_at(due: &IndexMap<u32, Option<u32>>, start: Stamp, domain: u32) -> Option<u32>
    ensures { result ≡ head.number_at due.now.entries start domain }
{
    let number = due.get(&domain).copied().flatten();
    if number.is_some() {
        return number;
    }
    if domain == start.domain {
        Some(start.sequence)
    } else {
        None
    }
}

// Whether the template of a record is in force.
fn is_in_force(domains: &Domains, kept: &KeptOptions) -> bool
    ensures { ByHistory domains.now (λ ds. head.is_in_force ds kept.now) result }
{
    let template = kept.template.template();
    match domains.lookup(kept.domain, template.id) {
        Some(known) => is_same_template(template, known),
        None => false,
    }
}

// Whether a record is written.
fn is_written(
    domains: &Domains,
    due: &IndexMap<u32, Option<u32>>,
    start: Stamp,
    kept: &KeptOptions,
) -> bool
    ensures { ByHistory domains.now (is_written_at due.now.entries start kept.now) result }
{
    is_in_force(domains, kept) && number_at(due, start, kept.domain).is_some()
}

// One if a record is of a domain and written, else none.
fn count_one(
    domains: &Domains,
    due: &IndexMap<u32, Option<u32>>,
    start: Stamp,
    domain: u32,
    kept: &KeptOptions,
) -> usize
    ensures few { result ≤ 1 }
    ensures is { ByHistory domains.now
        (count_at due.now.entries start domain (kept.now ∷ [])) result }
{
    if kept.domain == domain && is_written(domains, due, start, kept) {
        1
    } else {
        0
    }
}

// How many of these that are written are of a domain.
fn count_in(
    domains: &Domains,
    due: &IndexMap<u32, Option<u32>>,
    start: Stamp,
    domain: u32,
    kept: &[KeptOptions],
) -> usize
    ensures few { result ≤ length kept.now }
    ensures is { ByHistory domains.now (count_at due.now.entries start domain kept.now) result }
{
    let mut count = 0;
    let mut left = kept;
    while let Some((first, others)) = left.split_first() {
        count += count_one(domains, due, start, domain, first);
        left = others;
    }
    count
}

// The stamp of a record, if it is written, where these come after it.
fn stamp_for(
    domains: &Domains,
    due: &IndexMap<u32, Option<u32>>,
    start: Stamp,
    kept: &KeptOptions,
    others: &[KeptOptions],
) -> Option<Stamp>
    ensures { ByHistory domains.now
        (stamp_before due.now.entries start kept.now others.now) result }
{
    if !is_in_force(domains, kept) {
        return None;
    }
    let number = number_at(due, start, kept.domain)?;
    let count = 1 + count_in(domains, due, start, kept.domain, others);
    Some(Stamp {
        export_time: start.export_time,
        sequence: number.wrapping_sub((count % (1 << 32)) as u32),
        domain: kept.domain,
    })
}

// Appends two messages: the template of a record, and the record. What stood in `body` before is gone.
fn append_options(
    stamp: Stamp,
    kept: &KeptOptions,
    body: &mut Vec<u8>,
    out: &mut Vec<u8>,
) -> Result<(), AllocError>
    ensures { OnOk result (head.AppendsIf kept.now (Some stamp) out.old.items out.new.items) }
{
    let template = kept.template.to_write();
    append_template_message(stamp, template, body, out)?;
    let length = kept.octets.len();
    let header = Header {
        length: (HEADER_LENGTH + SET_HEADER_LENGTH + length) as u16,
        export_time: stamp.export_time,
        sequence: stamp.sequence,
        domain: stamp.domain,
    };
    write_header(&header, out)?;
    write_set(template.id, length as u16, out)?;
    out.extend_from_slice(&kept.octets)
}

// Appends a record, if it is written, where these come after it.
fn append_first(
    domains: &Domains,
    due: &IndexMap<u32, Option<u32>>,
    start: Stamp,
    kept: &KeptOptions,
    others: &[KeptOptions],
    body: &mut Vec<u8>,
    out: &mut Vec<u8>,
) -> Result<(), AllocError>
    ensures { OnOkFor domains.now result (λ ds.
        head.AppendsFirst ds (head.number_at due.now.entries start)
        start.export_time kept.now others.now out.old.items out.new.items) }
{
    match stamp_for(domains, due, start, kept, others) {
        Some(stamp) => append_options(stamp, kept, body, out),
        None => Ok(()),
    }
}

/// Appends what stands at the head of a file before its first message, of which this is the stamp: of the options records that
/// are kept, those whose template is in force and whose domain goes on with a number that is known. What stood in `body`
/// before is gone. Out of memory, the first octets may have been appended.
pub fn append_head(
    domains: &Domains,
    due: &IndexMap<u32, Option<u32>>,
    start: Stamp,
    kept: &[KeptOptions],
    body: &mut Vec<u8>,
    out: &mut Vec<u8>,
) -> Result<(), AllocError>
    ensures { OnOkFor domains.now result (λ ds.
        head.AppendsHead ds (head.number_at due.now.entries start)
        start.export_time kept.now out.old.items out.new.items) }
{
    let mut left = kept;
    while let Some((first, others)) = left.split_first() {
        append_first(domains, due, start, first, others, body, out)?;
        left = others;
    }
    Ok(())
}
