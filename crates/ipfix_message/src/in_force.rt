//! The templates of one domain that are in force (RFC 7011, section 8).

ghost use Rattle.std.specs.Prelude.{◌≡◌, ◌∷◌, ℕ, Some, ◌≤◌, length, OnOk, IfOk};
ghost use Rattle.std.specs.Ordering.{nat_cmp};
ghost use Rattle.std.specs.BTreeMap.{get};
ghost use Rattle.ipfix_message.specs.Outcome.{Gives};
ghost use Rattle.ipfix_message.specs.TemplatesInForce.{is_none_of, unless_of, event_gives, template_set_gives};
ghost use Rattle.ipfix_message.specs.Held.{MapAgrees, ChangesAt, ForEvents, defining, Updates};
ghost use Rattle.ipfix_message.specs.declared.template_record.TheConstants.{LONGEST_BODY};

use crate::fault::MessageFault;
use crate::template_in_force::{Definition, TemplateInForce};
use crate::template_record::{Event, TemplateKind, event_of, is_padding};
use std::alloc::Global;
use std::collections::BTreeMap;

/// The templates of a domain that are in force, by id.
pub type Templates = BTreeMap<u16, TemplateInForce>;

// Puts a template in force. The layout of its records is found only if it isn't in force already.
fn define(alloc: Global, templates: &mut Templates, new: Definition) -> Result<(), MessageFault>
    ensures gives { Gives (λ x. x) result (defining new (get nat_cmp templates.old new.id)) }
    ensures ok { OnOk result (ChangesAt new.id (λ _. Some new) templates.old templates.new) }
{
    let id = new.id();
    if let Some(known) = templates.get(&id) {
        if new.is_same(known) {
            return Ok(());
        }
        return Err(MessageFault::TemplateChanged);
    }
    templates.insert(id, TemplateInForce::new(alloc, new)?)?;
    Ok(())
}

// Ends a template of a kind, and answers whether there was none.
fn withdraw(templates: &mut Templates, kind: TemplateKind, id: u16) -> bool
    ensures ignored { result ≡ is_none_of kind (get nat_cmp templates.old id) }
    ensures left { ChangesAt id (unless_of kind) templates.old templates.new }
{
    let is_known = match templates.get(&id) {
        Some(known) => known.is_of(kind),
        None => false,
    };
    if is_known {
        let _ = templates.remove(&id);
    }
    !is_known
}

// Ends all templates of a kind.
fn withdraw_all(templates: &mut Templates, kind: TemplateKind)
    ensures { (q : ℕ) → get nat_cmp templates.new q ≡ unless_of kind (get nat_cmp templates.old q) }
{
    templates.retain(|_, known| !known.is_of(kind));
}

// Brings the templates up to an event, and answers whether it is a withdrawal that is ignored.
fn take_event(alloc: Global, templates: &mut Templates, event: Event) -> Result<bool, MessageFault>
    ensures gives { ForEvents templates.old
        (λ es. Gives (λ b. b) result (event_gives es event)) }
    ensures ok { ForEvents templates.old
        (λ es. OnOk result (MapAgrees templates.new (event ∷ es))) }
{
    match event {
        Event::Define(new) => {
            define(alloc, templates, new)?;
            Ok(false)
        }
        Event::Withdraw(kind, id) => Ok(withdraw(templates, kind, id)),
        Event::WithdrawAll(kind) => {
            withdraw_all(templates, kind);
            Ok(false)
        }
    }
}

/// Takes the body of a template set, and answers how many withdrawals were ignored.
pub fn take_templates(
    alloc: Global,
    kind: TemplateKind,
    body: &[u8],
    templates: &mut Templates,
) -> Result<u64, MessageFault>
    requires { length body.now ≤ LONGEST_BODY }
    ensures few { IfOk result (λ n. n ≤ length body.now) }
    ensures gives { ForEvents templates.old
        (λ es. Updates result templates.new.entries (template_set_gives kind es body.now)) }
{
    let mut ignored = 0;
    let mut rest = body;
    while !is_padding(rest) {
        let (event, after) = event_of(alloc, kind, rest)?;
        if take_event(alloc, templates, event)? {
            ignored += 1;
        }
        rest = after;
    }
    Ok(ignored)
}
