//! Whether the sets of a message can be read that are no template sets. Nothing of them is kept, and no memory is taken.

ghost use Rattle.std.specs.Prelude.{◌≡◌, ℕ, List, false, not, IfOk};
ghost use Rattle.ipfix_message.specs.Held.{ChecksBody, ChecksSet, ChecksSets};
ghost use Rattle.ipfix_message.specs.Sets as specs;
ghost use Rattle.ipfix_message.specs.Sets.{set_of};

use crate::fault::MessageFault;
use crate::in_force::Templates;
use crate::sets::next_set;
use crate::template_in_force::TemplateInForce;
use ipfix_wire::{FIRST_TEMPLATE_ID, OPTIONS_TEMPLATE_SET_ID, TEMPLATE_SET_ID};

// Checks the records in the body of a data set (RFC 7011, section 3.4.3).
fn check_body(known: &TemplateInForce, body: &[u8]) -> Result<(), MessageFault>
    ensures { ChecksBody result known.now.specs body.now }
{
    let laid_out = known.laid_out();
    let least = known.least();
    let mut rest = body;
    while rest.len() >= least {
        rest = laid_out.after_record(rest)?;
    }
    Ok(())
}

// Checks a set that is no template set.
fn check_set(id: u16, body: &[u8], templates: &Templates) -> Result<(), MessageFault>
    requires { specs.is_template_set (set_of id body.now) ≡ false }
    ensures { ChecksSet templates.now.entries (set_of id body.now) result }
{
    if id < FIRST_TEMPLATE_ID {
        return Ok(());
    }
    match templates.get(&id) {
        None => Ok(()),
        Some(known) => check_body(known, body),
    }
}

// Whether a set of this id is a template set.
fn is_template_set(id: u16) -> bool
    ensures { (body : List ℕ) → result ≡ specs.is_template_set (set_of id body) }
{
    id == TEMPLATE_SET_ID || id == OPTIONS_TEMPLATE_SET_ID
}

/// Whether there is a template set in what follows a message's header.
pub fn has_template_set(octets: &[u8]) -> bool
    ensures { result ≡ specs.has_template_set octets.now }
{
    let mut rest = octets;
    while !rest.is_empty() {
        let Ok(((id, _), after)) = next_set(rest) else {
            return false;
        };
        if is_template_set(id) {
            return true;
        }
        rest = after;
    }
    false
}

/// Checks the sets in what follows a message's header, up to the first template set, and answers whether there
/// is none. The fault is that of reading them.
pub fn check_sets(octets: &[u8], templates: &Templates) -> Result<bool, MessageFault>
    ensures sets { ChecksSets templates.now.entries octets.now result }
    ensures data { IfOk result (λ is_data. is_data ≡ not (specs.has_template_set octets.now)) }
{
    let mut rest = octets;
    while !rest.is_empty() {
        let ((id, body), after) = next_set(rest)?;
        if is_template_set(id) {
            return Ok(false);
        }
        check_set(id, body, templates)?;
        rest = after;
    }
    Ok(true)
}
