//! The templates that are defined again before a datagram.

ghost use Rattle.std.specs.Prelude.{◌≡◌, ◌==◌, None, OnOk, IfOk, if◌then◌else◌};
ghost use Rattle.std.specs.List.{list_any};
ghost use Rattle.std.specs.BTreeMap.{get};
ghost use Rattle.std.specs.Ordering.{nat_cmp};
ghost use Rattle.ipfix_message.specs.TemplatesInForce.{is_other};
ghost use Rattle.ipfix_datagrams.specs.Datagrams.{is_barred};
ghost use Rattle.ipfix_datagrams.specs.Attempts.{again_by};
ghost use Rattle.ipfix_datagrams.specs.Entries.{Holds, PutsAt};

use ipfix_message::{Template, Templates, is_same_template};
use std::alloc::{AllocError, Global};
use std::collections::BTreeMap;

/// Whether the first definition of its id is another.
pub fn is_replaced(template: &Template, id: u16, first: &Templates) -> bool
    ensures { result ≡ is_other template.now (get nat_cmp first.now id) }
{
    let Some(known) = first.get(&id) else {
        return false;
    };
    !is_same_template(template, known.template())
}

// Whether an id has no template, and the first definitions have none of it.
fn has_none(barred: &[u16], first: &Templates, id: u16) -> bool
    ensures { result ≡ is_barred barred.now (get nat_cmp first.now id) id }
{
    barred.contains(&id) && !first.contains_key(&id)
}

// Puts the template that is defined again for an id among them, if there is one.
fn put_again(
    id: u16,
    withdrawn: &Templates,
    barred: &[u16],
    first: &Templates,
    all: &mut Templates,
) -> Result<(), AllocError>
    ensures { OnOk result (PutsAt all.old all.new id (again_by barred.now withdrawn.now first.now)) }
{
    let Some(known) = withdrawn.get(&id) else {
        return Ok(());
    };
    if has_none(barred, first, id) || is_replaced(known.template(), id, first) {
        return Ok(());
    }
    all.insert(id, known.clone()?)?;
    Ok(())
}

/// Those of the templates that were withdrawn that are defined again before a datagram with sets of these ids
/// and these first definitions, where some ids have no template.
pub fn defined_again(
    alloc: Global,
    withdrawn: &Templates,
    barred: &[u16],
    first: &Templates,
    ids: &[u16],
) -> Result<Templates, AllocError>
    ensures { IfOk result (λ defined. Holds defined (λ q. if list_any (λ id. q == id) ids.now
        then again_by barred.now withdrawn.now first.now q else None)) }
{
    let mut defined = BTreeMap::new(alloc);
    for id in ids {
        put_again(*id, withdrawn, barred, first, &mut defined)?;
    }
    Ok(defined)
}
