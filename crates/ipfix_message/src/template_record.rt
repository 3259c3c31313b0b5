//! Template records: definitions and withdrawals (RFC 7011, sections 3.4.1, 3.4.2 and 8.1).

ghost use Rattle.std.specs.Prelude.{◌≡◌, ◌==◌, ◌+◌, ◌≤◌, ◌<◌, ◌^◌, length, vec_len, flat_map, All, IfOk};
ghost use Rattle.std.specs.List.{list_all};
ghost use Rattle.ipfix_message.specs.Outcome.{Gives};
ghost use Rattle.ipfix_message.specs.DataRecords;
ghost use Rattle.ipfix_message.specs.TemplateRecords;
ghost use Rattle.ipfix_wire.specs.FieldSpecifier.{spec_octets};
ghost use Rattle.ipfix_message.specs.WrittenTemplates.{HaveRoom, IsScope, IsSpec, scope_octets};
ghost use Rattle.ipfix_message.specs.TemplateRecords.{set_id_of, scope_at, specs_at, record_at, event_at};

use crate::fault::MessageFault;
use crate::record::{Specs, Template};
use crate::template_in_force::Definition;
use byteorder::{BigEndian, ByteOrder};
use ipfix_wire::{
    FIRST_TEMPLATE_ID, OPTIONS_TEMPLATE_SET_ID, Spec, TEMPLATE_SET_ID, VARIABLE_WIDTH, read_spec,
};
use std::alloc::Global;

/// Octets of the id and the field count, with which each template record begins (RFC 7011, section
/// 3.4.1).
pub const TEMPLATE_HEADER_LENGTH: usize = 4;

/// The most octets of a set's body: a message has at most 65,535, of which 16 are its header and 4 the
/// set's.
pub const LONGEST_BODY: usize = 65515;

/// The two kinds of template: plain ones, and options templates, which have scope fields (RFC 7011, section
/// 3.4.2).
#[derive(Clone, Copy, Debug, PartialEq, Eq)]
pub enum TemplateKind {
    Plain,
    Options,
}

/// What a template record does (RFC 7011, section 8.1): it defines a template, withdraws one, or withdraws
/// all of a kind.
#[derive(Drop)]
pub enum Event {
    Define(Definition),
    Withdraw(TemplateKind, u16),
    WithdrawAll(TemplateKind),
}

impl TemplateKind {
    /// The id of the sets that bring templates of this kind.
    pub fn set_id(self) -> u16
        ensures { result ≡ set_id_of self }
    {
        match self {
            TemplateKind::Plain => TEMPLATE_SET_ID,
            TemplateKind::Options => OPTIONS_TEMPLATE_SET_ID,
        }
    }
}

/// The least length of a record: the sum of the widths of its fields, where a field of variable
/// length counts 1.
pub fn least_of(specs: &[Spec]) -> usize
    requires { length specs.now < 2 ^ 16 }
    ensures { result ≡ DataRecords.least specs.now }
{
    let mut sum = 0;
    for spec in specs {
        sum += if spec.width == VARIABLE_WIDTH {
            1
        } else {
            usize::from(spec.width)
        };
    }
    sum
}

// Whether all octets are 0.
fn is_zero(octets: &[u8]) -> bool
    ensures { result ≡ list_all (λ b. b == 0) octets.now }
{
    octets.iter().all(|octet| *octet == 0)
}

/// Whether what is left of a template set is its padding: fewer octets than a template record has,
/// or zeros.
pub fn is_padding(rest: &[u8]) -> bool
    ensures { result ≡ TemplateRecords.is_padding rest.now }
{
    rest.len() < TEMPLATE_HEADER_LENGTH || is_zero(rest)
}

// The scope field count, which only an options template record has, and what follows it.
fn scope_of(kind: TemplateKind, count: u16, rest: &[u8]) -> Result<(u16, &[u8]), MessageFault>
    ensures exact { Gives (λ x. (x.0, x.1.now)) result (scope_at kind count rest.now) }
    ensures scoped { IfOk result (λ x. IsScope kind x.0 count) }
    // It is written again in no more octets.
    ensures room { IfOk result (λ x. HaveRoom (scope_octets kind x.0) x.1.now rest.now) }
{
    match kind {
        TemplateKind::Plain => Ok((0, rest)),
        TemplateKind::Options => {
            if rest.len() < 2 {
                return Err(MessageFault::TemplateCut);
            }
            let scope = BigEndian::read_u16(rest);
            if scope == 0 || count < scope {
                return Err(MessageFault::Scope);
            }
            let (_, after) = rest.split_at(2);
            Ok((scope, after))
        }
    }
}

// That many field specifiers, and what follows them.
fn specs_of(alloc: Global, count: u16, octets: &[u8]) -> Result<(Vec<Spec>, &[u8]), MessageFault>
    ensures exact { Gives (λ x. (x.0.items, x.1.now)) result (specs_at count octets.now) }
    ensures count { IfOk result (λ x. vec_len x.0 ≡ count) }
    ensures each { IfOk result (λ x. All IsSpec x.0.items) }
    // They are written again in no more octets.
    ensures room { IfOk result
        (λ x. HaveRoom (flat_map spec_octets x.0.items) x.1.now octets.now) }
{
    let mut specs = Vec::new(alloc);
    let mut rest = octets;
    for _ in 0..count {
        let Some((spec, used)) = read_spec(rest) else {
            return Err(MessageFault::TemplateCut);
        };
        specs.push(spec)?;
        let (_, after) = rest.split_at(used);
        rest = after;
    }
    Ok((specs, rest))
}

// What a record with this id and field count does, and what follows it.
fn record_of(
    alloc: Global,
    kind: TemplateKind,
    id: u16,
    count: u16,
    octets: &[u8],
) -> Result<(Event, &[u8]), MessageFault>
    requires { TEMPLATE_HEADER_LENGTH + length octets.now ≤ LONGEST_BODY }
    ensures { Gives (λ x. (x.0, x.1.now)) result (record_at kind id count octets.now) }
{
    if count == 0 {
        if id == kind.set_id() {
            return Ok((Event::WithdrawAll(kind), octets));
        }
        if id < FIRST_TEMPLATE_ID {
            return Err(MessageFault::TemplateId);
        }
        return Ok((Event::Withdraw(kind, id), octets));
    }
    if id < FIRST_TEMPLATE_ID {
        return Err(MessageFault::TemplateId);
    }
    let (scope, rest) = scope_of(kind, count, octets)?;
    let (specs, rest) = specs_of(alloc, count, rest)?;
    let least = least_of(&specs);
    if least == 0 {
        return Err(MessageFault::ZeroLength);
    }
    let template = Template {
        id,
        scope,
        specs: Specs::from_vec(specs),
    };
    Ok((Event::Define(Definition::new(template, least)), rest))
}

/// The template record that `octets` begins with in a set of this kind, and what follows it (RFC 7011,
/// sections 3.4.1 and 3.4.2). The fault is the first one of the record, or `OutOfMemory`.
pub fn event_of(
    alloc: Global,
    kind: TemplateKind,
    octets: &[u8],
) -> Result<(Event, &[u8]), MessageFault>
    requires long { TEMPLATE_HEADER_LENGTH ≤ length octets.now }
    requires room { length octets.now ≤ LONGEST_BODY }
    ensures { Gives (λ x. (x.0, x.1.now)) result (event_at kind octets.now) }
{
    let id = BigEndian::read_u16(octets);
    let count = BigEndian::read_u16(&octets[2..]);
    let (_, rest) = octets.split_at(TEMPLATE_HEADER_LENGTH);
    record_of(alloc, kind, id, count, rest)
}
