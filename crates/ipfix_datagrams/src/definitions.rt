//! The templates that a datagram defines, and its withdrawals (RFC 7011, sections 3.4 and 8.4).

ghost use Rattle.std.specs.Prelude.{◌≡◌, ◌==◌, ◌∷◌, [], false, length, ◌≤◌, ◌+◌, OnOk};
ghost use Rattle.std.specs.List.{list_all};
ghost use Rattle.std.specs.BTreeMap.{IsOrdered};
ghost use Rattle.std.specs.Ordering.{nat_cmp};
ghost use Rattle.ipfix_message.specs.TemplateRecords.{event_at, events_of};
ghost use Rattle.ipfix_message.specs.declared.template_record.Event.TheVariants.{Define};
ghost use Rattle.ipfix_message.specs.declared.template_record.TheConstants.{LONGEST_BODY};
ghost use Rattle.ipfix_wire.specs.declared.set.TheConstants.{SET_HEADER_LENGTH};
ghost use Rattle.ipfix_session.specs.Ledger.{capped};
ghost use Rattle.ipfix_datagrams.specs.Attempts.{Adds, Finds, OkIfMemory, OrOutOfMemory, PutsOthers, ReadsNext, OnlyIf, at_own_id, set_with};
ghost use Rattle.ipfix_datagrams.specs.Datagrams.{are_withdrawals, events_of_set, is_withdrawing, is_withdrawal};

use crate::data_sets::set_at;
use ipfix_message::{
    Definition, Event, MessageFault, TEMPLATE_HEADER_LENGTH, TemplateInForce, TemplateKind,
    Templates, event_of,
};
use ipfix_wire::{OPTIONS_TEMPLATE_SET_ID, TEMPLATE_SET_ID};
use std::alloc::{AllocError, Global};
use std::collections::BTreeMap;

/// What the template records of a datagram are.
#[derive(Drop)]
pub struct Definitions {
    /// The templates that it defines, by id: the first definition of each.
    pub first: Templates,
    /// The last definition of each.
    pub last: Templates,
    /// How many withdrawals it has, up to `u64::MAX`.
    pub withdrawals: u64,
    /// Whether all that it has is withdrawals, and is read without a fault.
    pub withdraws_only: bool,
}

/// Puts a definition among the first ones, unless its id has one.
pub fn put_first(definition: &TemplateInForce, first: &mut Templates) -> Result<(), AllocError>
    ensures puts { OnOk result (PutsOthers first.old first.new (at_own_id definition.now)) }
    ensures ordered { IsOrdered nat_cmp first.old → OnOk result (IsOrdered nat_cmp first.new) }
{
    let id = definition.template().id;
    if first.contains_key(&id) {
        return Ok(());
    }
    first.insert(id, definition.clone()?)?;
    Ok(())
}

// Takes a definition. The layout of its records is found.
fn take_definition(
    alloc: Global,
    definition: Definition,
    all: &mut Definitions,
) -> Result<(), AllocError>
    ensures defines { OnOk result (Adds all.old all.new (Define definition ∷ [])) }
    ensures only { OnOk result (all.new.withdraws_only ≡ false) }
{
    all.withdraws_only = false;
    let id = definition.id();
    let template = TemplateInForce::new(alloc, definition)?;
    put_first(&template, &mut all.first)?;
    all.last.insert(id, template)?;
    Ok(())
}

// Counts a withdrawal.
fn take_withdrawal(all: &mut Definitions)
    ensures { all.new ≡ record all.old { withdrawals = capped (all.old.withdrawals + 1) } }
{
    all.withdrawals = all.withdrawals.saturating_add(1);
}

// Takes a template record.
fn take_event(alloc: Global, event: Event, all: &mut Definitions) -> Result<(), AllocError>
    ensures defines { OnOk result (Adds all.old all.new (event ∷ [])) }
    ensures only { OnOk result (OnlyIf all.old all.new (is_withdrawal event)) }
{
    match event {
        Event::Define(definition) => take_definition(alloc, definition, all)?,
        Event::Withdraw(_, _) => take_withdrawal(all),
        Event::WithdrawAll(_) => take_withdrawal(all),
    }
    Ok(())
}

// Whether octets are zeros, as padding is.
fn are_zeros(octets: &[u8]) -> bool
    ensures { result ≡ list_all (λ b. b == 0) octets.now }
{
    octets.iter().all(|b| *b == 0)
}

// Takes what is left of a set where no template record stands: padding, or there is a fault.
fn take_rest(rest: &[u8], all: &mut Definitions)
    ensures only { OnlyIf all.old all.new (list_all (λ b. b == 0) rest.now) }
    ensures others { all.new ≡ record all.old { withdraws_only = all.new.withdraws_only } }
{
    all.withdraws_only = are_zeros(rest) && all.withdraws_only;
}

// The next template record and what follows it, if one stands there. The fault is `OutOfMemory`.
fn next_event(
    alloc: Global,
    kind: TemplateKind,
    octets: &[u8],
) -> Result<Option<(Event, &[u8])>, MessageFault>
    requires long { TEMPLATE_HEADER_LENGTH ≤ length octets.now }
    requires room { length octets.now ≤ LONGEST_BODY }
    ensures { ReadsNext result (event_at kind octets.now) (λ x. (x.0, x.1.now)) }
{
    match event_of(alloc, kind, octets) {
        Ok(next) => Ok(Some(next)),
        Err(MessageFault::OutOfMemory) => Err(MessageFault::OutOfMemory),
        Err(_) => Ok(None),
    }
}

// Takes the template records in the body of a template set. The fault is `OutOfMemory`.
fn take_events(
    alloc: Global,
    kind: TemplateKind,
    body: &[u8],
    all: &mut Definitions,
) -> Result<(), MessageFault>
    requires { length body.now ≤ LONGEST_BODY }
    ensures defines { OkIfMemory result (Adds all.old all.new (events_of kind body.now).items) }
    ensures only { OkIfMemory result (OnlyIf all.old all.new (are_withdrawals kind body.now)) }
{
    let mut rest = body;
    while TEMPLATE_HEADER_LENGTH <= rest.len() {
        let Some((event, after)) = next_event(alloc, kind, rest)? else {
            take_rest(rest, all);
            return Ok(());
        };
        take_event(alloc, event, all)?;
        rest = after;
    }
    Ok(())
}

// Takes a set. The fault is `OutOfMemory`.
fn take_set(alloc: Global, id: u16, body: &[u8], all: &mut Definitions) -> Result<(), MessageFault>
    requires { length body.now ≤ LONGEST_BODY }
    ensures defines { OkIfMemory result
        (Adds all.old all.new (events_of_set (set_with id body.now))) }
    ensures only { OkIfMemory result
        (OnlyIf all.old all.new (is_withdrawing (set_with id body.now))) }
{
    if id == TEMPLATE_SET_ID {
        take_events(alloc, TemplateKind::Plain, body, all)
    } else if id == OPTIONS_TEMPLATE_SET_ID {
        take_events(alloc, TemplateKind::Options, body, all)
    } else {
        all.withdraws_only = false;
        Ok(())
    }
}

/// The templates that the sets in what follows a message's header define, and their withdrawals. Without a
/// definition this takes no memory. The fault is `OutOfMemory`.
pub fn definitions_of(alloc: Global, octets: &[u8]) -> Result<Definitions, MessageFault>
    requires { length octets.now ≤ SET_HEADER_LENGTH + LONGEST_BODY }
    ensures { OrOutOfMemory result (λ definitions. Finds definitions octets.now) }
{
    let mut definitions = Definitions {
        first: BTreeMap::new(alloc),
        last: BTreeMap::new(alloc),
        withdrawals: 0,
        withdraws_only: true,
    };
    let mut rest = octets;
    while !rest.is_empty() {
        let Some(((id, body), after)) = set_at(rest)? else {
            definitions.withdraws_only = false;
            return Ok(definitions);
        };
        take_set(alloc, id, body, &mut definitions)?;
        rest = after;
    }
    Ok(definitions)
}
