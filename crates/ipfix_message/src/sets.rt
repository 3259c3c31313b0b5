//! The sets of a message in turn (RFC 7011, section 3.3).

ghost use Rattle.std.specs.Prelude.{◌≡◌, ◌+◌, ◌<◌, ◌≤◌, ◌^◌, length, IfOk, OnOk, IsErrOf};
ghost use Rattle.ipfix_message.specs.declared.template_record.TheConstants.{LONGEST_BODY};
ghost use Rattle.ipfix_message.specs.Outcome.{Gives};
ghost use Rattle.ipfix_message.specs.Sets;
ghost use Rattle.ipfix_message.specs.Sets.{set_length, set_of};
ghost use Rattle.ipfix_message.specs.declared.fault.MessageFault.TheVariants.{OutOfMemory};
ghost use Rattle.ipfix_message.specs.Messages;
ghost use Rattle.ipfix_message.specs.Messages.{Decoding, set_gives, sets_from};
ghost use Rattle.ipfix_message.specs.Held.{Holds, Reaches, counted};
ghost use Rattle.ipfix_message.specs.TemplatesInForce.{in_force};

use crate::data_set::take_records;
use crate::fault::MessageFault;
use crate::in_force::{Templates, take_templates};
use crate::message::Decoded;
use crate::template_record::TemplateKind;
use ipfix_wire::{
    FIRST_TEMPLATE_ID, OPTIONS_TEMPLATE_SET_ID, SET_HEADER_LENGTH, TEMPLATE_SET_ID, read_set,
};
use std::alloc::Global;

/// The id and the body of the next set, and what follows the set (RFC 7011, section 3.3.2). The fault is
/// that of its header.
#[tactic(auto, unfolding(crate::specs::Sets::next_set))]
pub fn next_set(rest: &[u8]) -> Result<((u16, &[u8]), &[u8]), MessageFault>
    requires { 0 < length rest.now }
    ensures exact { Gives (λ x. (set_of x.0.0 x.0.1.now, x.1.now)) result
        (Sets.next_set rest.now) }
    ensures room { IfOk result
        (λ x. set_length x.0.1.now + length x.1.now ≡ length rest.now) }
    ensures memory { ¬ IsErrOf result OutOfMemory }
{
    let span = read_set(rest)?;
    let (_, rest) = rest.split_at(SET_HEADER_LENGTH);
    let (body, rest) = rest.split_at(span.body);
    Ok(((span.id, body), rest))
}

// Puts the templates of a set in force, and counts the withdrawals that are ignored.
fn take_template_set(
    alloc: Global,
    kind: TemplateKind,
    body: &[u8],
    templates: &mut Templates,
    decoded: &mut Decoded,
) -> Result<(), MessageFault>
    requires few { counted decoded.old + length body.now < 2 ^ 64 }
    requires room { length body.now ≤ LONGEST_BODY }
    ensures few { OnOk result (counted decoded.new ≤ counted decoded.old + length body.now) }
    ensures header { decoded.new.header ≡ decoded.old.header }
    ensures gives { (d : Decoding) → Holds templates.old.entries decoded.old d
        → Reaches result templates.new.entries decoded.new
        (Messages.templates_in kind d body.now) }
{
    let ignored = take_templates(alloc, kind, body, templates)?;
    decoded.ignored_withdrawals += ignored;
    Ok(())
}

// Appends the records of a data set, or counts it if no template of its id is in force.
fn take_data_set(
    alloc: Global,
    id: u16,
    body: &[u8],
    templates: &Templates,
    decoded: &mut Decoded,
) -> Result<(), MessageFault>
    requires few { counted decoded.old + 1 < 2 ^ 64 }
    requires room { length body.now ≤ LONGEST_BODY }
    ensures few { OnOk result (counted decoded.new ≤ counted decoded.old + 1) }
    ensures header { decoded.new.header ≡ decoded.old.header }
    ensures gives { (d : Decoding) → Holds templates.now.entries decoded.old d
        → Reaches result templates.now.entries decoded.new
        (Messages.data_in decoded.old.header d body.now (in_force d.events id)) }
{
    match templates.get(&id) {
        None => {
            decoded.unknown_sets += 1;
            Ok(())
        }
        Some(known) => take_records(alloc, &decoded.header, known, body, &mut decoded.records),
    }
}

// Takes a set as its id says, or counts it as skipped.
#[tactic(auto, unfolding(crate::specs::Messages::set_gives))]
fn take_set(
    alloc: Global,
    id: u16,
    body: &[u8],
    templates: &mut Templates,
    decoded: &mut Decoded,
) -> Result<(), MessageFault>
    requires few { counted decoded.old + length body.now + 1 < 2 ^ 64 }
    requires room { length body.now ≤ LONGEST_BODY }
    ensures few { OnOk result (counted decoded.new ≤ counted decoded.old + length body.now + 1) }
    ensures header { decoded.new.header ≡ decoded.old.header }
    ensures gives { (d : Decoding) → Holds templates.old.entries decoded.old d
        → Reaches result templates.new.entries decoded.new
        (set_gives decoded.old.header d (set_of id body.now)) }
{
    if id == TEMPLATE_SET_ID {
        take_template_set(alloc, TemplateKind::Plain, body, templates, decoded)
    } else if id == OPTIONS_TEMPLATE_SET_ID {
        take_template_set(alloc, TemplateKind::Options, body, templates, decoded)
    } else if id < FIRST_TEMPLATE_ID {
        decoded.skipped_sets += 1;
        Ok(())
    } else {
        take_data_set(alloc, id, body, templates, decoded)
    }
}

/// Takes the sets of a message, which are what follows its header.
pub fn take_sets(
    alloc: Global,
    octets: &[u8],
    templates: &mut Templates,
    decoded: &mut Decoded,
) -> Result<(), MessageFault>
    requires few { counted decoded.old + length octets.now < 2 ^ 64 }
    requires room { length octets.now ≤ SET_HEADER_LENGTH + LONGEST_BODY }
    ensures header { decoded.new.header ≡ decoded.old.header }
    ensures gives { (d : Decoding) → Holds templates.old.entries decoded.old d
        → Reaches result templates.new.entries decoded.new
        (sets_from decoded.old.header d octets.now) }
{
    let mut rest = octets;
    while !rest.is_empty() {
        let ((id, body), after) = next_set(rest)?;
        take_set(alloc, id, body, templates, decoded)?;
        rest = after;
    }
    Ok(())
}
