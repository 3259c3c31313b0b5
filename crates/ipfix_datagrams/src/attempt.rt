//! One attempt to read a datagram.

ghost use Rattle.std.specs.Prelude.{◌≡◌, All, Ok, MatchResult};
ghost use Rattle.ipfix_message.specs.Domains.{History, alone, message_header};
ghost use Rattle.ipfix_message.specs.Outcome.{Fails};
ghost use Rattle.ipfix_datagrams.specs.Attempts.{CanAttempt, OrOutOfMemory, Reads};
ghost use Rattle.ipfix_datagrams.specs.Datagrams.{Represents, given_after, preparation_by, prepared};
ghost use Rattle.ipfix_datagrams.specs.Withdrawals.{HasTemplateId};

use crate::defining::define_all;
use crate::withdrawing::withdraw_all;
use crate::withdrawn_template::WithdrawnTemplate;
use ipfix_message::{Domains, MessageFault, Templates};
use ipfix_wire::Header;
use std::alloc::Global;

// One domain alone, after these templates are withdrawn in it, and these defined. The fault is `OutOfMemory`.
fn alone_after(
    alloc: Global,
    domains: &Domains,
    header: &Header,
    withdrawn: &[WithdrawnTemplate],
    defined: &Templates,
) -> Result<Domains, MessageFault>
    requires { All HasTemplateId withdrawn.now }
    ensures { let domain = header.now.domain in
        let p = preparation_by withdrawn.now defined.now in
        (ds : History) → CanAttempt domains.now ds domain p → OrOutOfMemory result
        (λ d. Represents d (prepared (alone ds domain) domain p)) }
{
    let mut alone = match domains.alone(alloc, header.domain) {
        Ok(alone) => alone,
        Err(_) => return Err(MessageFault::OutOfMemory),
    };
    withdraw_all(alloc, &mut alone, header, withdrawn)?;
    define_all(alloc, &mut alone, header, defined)?;
    Ok(alone)
}

/// Reads a datagram after these templates are withdrawn in its domain, and these defined, in a copy of the
/// domain, and answers the copy. Nothing is changed.
pub fn attempt(
    alloc: Global,
    domains: &Domains,
    header: &Header,
    withdrawn: &[WithdrawnTemplate],
    defined: &Templates,
    datagram: &[u8],
) -> Result<Domains, MessageFault>
    requires header { message_header datagram.now ≡ Ok header.now }
    requires ids { All HasTemplateId withdrawn.now }
    ensures { let d = header.now.domain in let p = preparation_by withdrawn.now defined.now in
        (ds : History) → CanAttempt domains.now ds d p → MatchResult result
        (Reads ds d p datagram.now)
        (λ fault. Fails fault (given_after ds d p datagram.now)) }
{
    let mut alone = alone_after(alloc, domains, header, withdrawn, defined)?;
    let _ = alone.decode_with_header(alloc, header, datagram)?;
    Ok(alone)
}
