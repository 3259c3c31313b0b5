//! The templates of an earlier run that are defined before a datagram.

ghost use Rattle.std.specs.Prelude.{◌≡◌, OnOk};
ghost use Rattle.std.specs.BTreeMap.{values, IsOrdered};
ghost use Rattle.std.specs.Ordering.{nat_cmp};
ghost use Rattle.ipfix_datagrams.specs.Attempts.{PutsOthers, if_open, is_open_in, resumed_in};

use crate::again::is_replaced;
use crate::definitions::put_first;
use crate::withdrawn_templates::has_id;
use ipfix_message::{Template, TemplateInForce, Templates};
use std::alloc::AllocError;

// Whether none is in force for the id of a template, none was withdrawn, and a datagram doesn't first define another.
fn is_open(
    template: &Template,
    in_force: Option<&Templates>,
    withdrawn: Option<&Templates>,
    first: &Templates,
) -> bool
    ensures { result ≡ is_open_in in_force.entry withdrawn.entry first.now template.now }
{
    let id = template.id;
    !has_id(in_force, id) && !has_id(withdrawn, id) && !is_replaced(template, id, first)
}

// Puts a template among others if it is so.
fn put_open(
    known: &TemplateInForce,
    in_force: Option<&Templates>,
    withdrawn: Option<&Templates>,
    first: &Templates,
    defined: &mut Templates,
) -> Result<(), AllocError>
    ensures puts { let is_open = is_open_in in_force.entry withdrawn.entry first.now known.now in
        OnOk result (PutsOthers defined.old defined.new (if_open is_open known.now)) }
    ensures ordered { IsOrdered nat_cmp defined.old → OnOk result (IsOrdered nat_cmp defined.new) }
{
    if is_open(known.template(), in_force, withdrawn, first) {
        return put_first(known, defined);
    }
    Ok(())
}

/// Puts those of an earlier run's templates among those that are defined before a datagram for whose ids none is in
/// force, none was withdrawn, and the datagram doesn't first define another.
pub fn resume(
    resumed: &Templates,
    in_force: Option<&Templates>,
    withdrawn: Option<&Templates>,
    first: &Templates,
    defined: &mut Templates,
) -> Result<(), AllocError>
    ensures puts { OnOk result (PutsOthers defined.old defined.new
        (resumed_in in_force.entry withdrawn.entry first.now (values resumed.now))) }
    ensures ordered { IsOrdered nat_cmp defined.old → OnOk result (IsOrdered nat_cmp defined.new) }
{
    for known in resumed.values() {
        put_open(known, in_force, withdrawn, first, defined)?;
    }
    Ok(())
}
