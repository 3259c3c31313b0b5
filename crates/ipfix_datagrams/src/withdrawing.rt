//! Withdrawing templates: they are in force no more (RFC 7011, section 8.1).

ghost use Rattle.std.specs.Prelude.{[], ◌∷◌, All};
ghost use Rattle.ipfix_datagrams.specs.Attempts.{WithdrawsIn};
ghost use Rattle.ipfix_datagrams.specs.Withdrawals.{HasTemplateId};

use crate::withdrawal::append_withdrawals;
use crate::withdrawn_template::WithdrawnTemplate;
use ipfix_message::{Domains, MessageFault};
use ipfix_wire::Header;
use std::alloc::Global;

// Withdraws a template. What stood in `message` before is gone.
fn withdraw(
    alloc: Global,
    domains: &mut Domains,
    header: &Header,
    template: WithdrawnTemplate,
    message: &mut Vec<u8>,
) -> Result<(), MessageFault>
    requires { HasTemplateId template }
    ensures { WithdrawsIn result domains.old domains.new header.now.domain (template ∷ []) }
{
    message.clear();
    if append_withdrawals(header, &[template], message).is_err() {
        return Err(MessageFault::OutOfMemory);
    }
    let _ = domains.decode(alloc, message)?;
    Ok(())
}

/// Withdraws templates in the domain of a header, which has appeared if there are any. The fault is `OutOfMemory`, and after
/// it the domains are of no use.
pub fn withdraw_all(
    alloc: Global,
    domains: &mut Domains,
    header: &Header,
    templates: &[WithdrawnTemplate],
) -> Result<(), MessageFault>
    requires { All HasTemplateId templates.now }
    ensures { WithdrawsIn result domains.old domains.new header.now.domain templates.now }
{
    let mut message = Vec::new(alloc);
    for template in templates {
        withdraw(alloc, domains, header, *template, &mut message)?;
    }
    Ok(())
}
