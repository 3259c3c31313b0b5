//! The templates that a datagram defines otherwise than they are in force.

ghost use Rattle.std.specs.Prelude.{◌≡◌, ◌==◌, ◌&&◌, ◌++◌, ℕ, All, IfOk, OnOk, option_copied};
ghost use Rattle.std.specs.BTreeMap.{get, values, IsOrdered};
ghost use Rattle.std.specs.Ordering.{nat_cmp};
ghost use Rattle.ipfix_message.specs.WrittenTemplates.{IsTemplate};
ghost use Rattle.ipfix_datagrams.specs.Attempts.{dropped_at, dropped_in, replaced_at, replaced_in};
ghost use Rattle.ipfix_datagrams.specs.Datagrams.{is_changed_by, template_of};
ghost use Rattle.ipfix_datagrams.specs.Entries.{AlsoLists, Gains, is_listed};
ghost use Rattle.ipfix_datagrams.specs.Late.{known_as};
ghost use Rattle.ipfix_datagrams.specs.Withdrawals.{HasTemplateId};

use crate::withdrawn_template::WithdrawnTemplate;
use ipfix_message::{Template, TemplateInForce, Templates, is_same_template};
use std::alloc::{AllocError, Global};

// Appends the template in force that a template replaces, if it is another.
fn push_replaced(
    template: &Template,
    before: Option<&Templates>,
    withdrawn: &mut Vec<WithdrawnTemplate>,
) -> Result<(), AllocError>
    ensures { OnOk result (Gains withdrawn.old withdrawn.new
        (replaced_at before.entry template.now)) }
{
    let Some(templates) = before else {
        return Ok(());
    };
    let Some(known) = templates.get(&template.id) else {
        return Ok(());
    };
    let known = known.template();
    if is_same_template(template, known) {
        return Ok(());
    }
    withdrawn.push(WithdrawnTemplate {
        id: template.id,
        is_options: known.scope != 0,
    })?;
    Ok(())
}

// The templates in force that the first definitions of a datagram replace: for their ids these are others.
fn changes(
    alloc: Global,
    first: &Templates,
    before: Option<&Templates>,
) -> Result<Vec<WithdrawnTemplate>, AllocError>
    ensures ordered { OnOk result (IsOrdered nat_cmp first.now) }
    ensures writable { OnOk result (All IsTemplate (values first.now)) }
    ensures items { IfOk result (λ ws. ws.items ≡ replaced_in before.entry first.now) }
{
    let mut withdrawn = Vec::new(alloc);
    for known in first.values() {
        push_replaced(known.to_write(), before, &mut withdrawn)?;
    }
    Ok(withdrawn)
}

// Appends the template in force for an id that has none, unless a datagram first defines one.
fn push_dropped(
    id: u16,
    first: &Templates,
    before: Option<&Templates>,
    all: &mut Vec<WithdrawnTemplate>,
) -> Result<(), AllocError>
    ensures items { OnOk result (Gains all.old all.new (dropped_at first.now before.entry id)) }
    ensures ids { All HasTemplateId all.old.items → OnOk result (All HasTemplateId all.new.items) }
{
    if first.contains_key(&id) {
        return Ok(());
    }
    let Some(templates) = before else {
        return Ok(());
    };
    let Some(known) = templates.get(&id) else {
        return Ok(());
    };
    let known = known.to_write();
    all.push(WithdrawnTemplate {
        id: known.id,
        is_options: known.scope != 0,
    })?;
    Ok(())
}

/// The templates in force for ids that have none, unless a datagram first defines these.
pub fn dropped(
    alloc: Global,
    barred: &[u16],
    first: &Templates,
    before: Option<&Templates>,
) -> Result<Vec<WithdrawnTemplate>, AllocError>
    ensures items { IfOk result (λ ws. ws.items ≡ dropped_in first.now before.entry barred.now) }
    ensures ids { IfOk result (λ ws. All HasTemplateId ws.items) }
{
    let mut dropped = Vec::new(alloc);
    for id in barred {
        push_dropped(*id, first, before, &mut dropped)?;
    }
    Ok(dropped)
}

/// These templates, and then those in force that the first definitions of a datagram replace.
pub fn with_changes(
    alloc: Global,
    dropped: Vec<WithdrawnTemplate>,
    first: &Templates,
    before: Option<&Templates>,
) -> Result<Vec<WithdrawnTemplate>, AllocError>
    requires { All HasTemplateId dropped.items }
    ensures ordered { OnOk result (IsOrdered nat_cmp first.now) }
    ensures ids { IfOk result (λ ws. All HasTemplateId ws.items) }
    ensures items { IfOk result (λ ws. ws.items
        ≡ dropped.items ++ replaced_in before.entry first.now) }
{
    let replaced = changes(alloc, first, before)?;
    let mut withdrawn = dropped;
    withdrawn.extend_from_slice(&replaced)?;
    Ok(withdrawn)
}

// The template of an id, if there are any.
fn of_id(templates: Option<&Templates>, id: u16) -> Option<&TemplateInForce>
    ensures { option_copied result ≡ template_of templates.entry id }
{
    templates?.get(&id)
}

/// The template of an id that is in force, or else withdrawn.
pub fn known_of<'a>(
    id: u16,
    in_force: Option<&'a Templates>,
    withdrawn: Option<&'a Templates>,
) -> Option<&'a TemplateInForce>
    ensures { option_copied result ≡ known_as in_force.entry withdrawn.entry id }
{
    match of_id(in_force, id) {
        Some(known) => Some(known),
        None => of_id(withdrawn, id),
    }
}

// Whether the last definition of an id, if it has one, is another than the template that is known.
fn is_changed(last: &Templates, id: u16, known: Option<&TemplateInForce>) -> bool
    ensures { result ≡ is_changed_by (get nat_cmp last.now id) (option_copied known.entry) }
{
    let Some(template) = last.get(&id) else {
        return false;
    };
    let Some(known) = known else {
        return false;
    };
    !is_same_template(template.template(), known.template())
}

// Appends an id, if it is so.
fn push_if(id: u16, is_so: bool, ids: &mut Vec<u16>) -> Result<(), AllocError>
    ensures { OnOk result (AlsoLists ids.old.items ids.new.items (λ q. is_so && (id == q))) }
{
    if is_so {
        ids.push(id)?;
    }
    Ok(())
}

/// The ids for which the last definitions of a datagram change what is known: in force, or else withdrawn.
pub fn changed(
    alloc: Global,
    last: &Templates,
    in_force: Option<&Templates>,
    withdrawn: Option<&Templates>,
) -> Result<Vec<u16>, AllocError>
    ensures { let known = known_as in_force.entry withdrawn.entry in
        IfOk result (λ ids. (q : ℕ) → is_listed ids.items q
        ≡ is_changed_by (get nat_cmp last.now q) (known q)) }
{
    let mut ids = Vec::new(alloc);
    for id in last.keys() {
        let known = known_of(*id, in_force, withdrawn);
        push_if(*id, is_changed(last, *id, known), &mut ids)?;
    }
    Ok(ids)
}
