//! Defining templates again: they are in force once more (RFC 7011, section 8).

ghost use Rattle.std.specs.Prelude.{[], ◌∷◌};
ghost use Rattle.std.specs.BTreeMap.{values};
ghost use Rattle.ipfix_message.specs.WrittenTemplates.{IsTemplate};
ghost use Rattle.ipfix_datagrams.specs.Attempts.{DefinesIn};

use ipfix_message::{Domains, MessageFault, Stamp, Template, Templates, append_template_message};
use ipfix_wire::Header;
use std::alloc::Global;

// Defines a template. What stood in `message` before is gone.
fn define(
    alloc: Global,
    domains: &mut Domains,
    stamp: Stamp,
    template: &Template,
    message: &mut Vec<u8>,
) -> Result<(), MessageFault>
    requires { IsTemplate template.now }
    ensures { DefinesIn result domains.old domains.new stamp.domain (template.now ∷ []) }
{
    let mut body = Vec::new(alloc);
    message.clear();
    if append_template_message(stamp, template, &mut body, message).is_err() {
        return Err(MessageFault::OutOfMemory);
    }
    let _ = domains.decode(alloc, message)?;
    Ok(())
}

/// Defines templates in the domain of a header, which has appeared or has room. The fault is `OutOfMemory`, and after
/// it the domains are of no use.
pub fn define_all(
    alloc: Global,
    domains: &mut Domains,
    header: &Header,
    templates: &Templates,
) -> Result<(), MessageFault>
    ensures { DefinesIn result domains.old domains.new header.now.domain (values templates.now) }
{
    let stamp = Stamp {
        export_time: header.export_time,
        sequence: header.sequence,
        domain: header.domain,
    };
    let mut message = Vec::new(alloc);
    for known in templates.values() {
        define(alloc, domains, stamp, known.to_write(), &mut message)?;
    }
    Ok(())
}
