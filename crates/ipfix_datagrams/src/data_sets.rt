//! The sets of a datagram, and their ids (RFC 7011, section 3.3).

ghost use Rattle.std.specs.Prelude.{◌≡◌, ◌<◌, length, map};
ghost use Rattle.ipfix_message.specs.Sets;
ghost use Rattle.ipfix_message.specs.Sets.{sets_of};
ghost use Rattle.ipfix_datagrams.specs.Attempts.{OrOutOfMemory, ReadsNext, set_with};

use ipfix_message::{MessageFault, next_set};
use std::alloc::Global;

/// The id and the body of the next set and what follows the set, if one stands there. The fault is
/// `OutOfMemory`.
pub fn set_at(rest: &[u8]) -> Result<Option<((u16, &[u8]), &[u8])>, MessageFault>
    requires { 0 < length rest.now }
    ensures { ReadsNext result (Sets.next_set rest.now) (λ x. (set_with x.0.0 x.0.1.now, x.1.now)) }
{
    match next_set(rest) {
        Ok(next) => Ok(Some(next)),
        Err(MessageFault::OutOfMemory) => Err(MessageFault::OutOfMemory),
        Err(_) => Ok(None),
    }
}

/// The ids of the sets in what follows a message's header, in the order of its octets. The fault is
/// `OutOfMemory`.
pub fn set_ids(alloc: Global, octets: &[u8]) -> Result<Vec<u16>, MessageFault>
    ensures { OrOutOfMemory result
        (λ ids. ids.items ≡ map (λ s. s.id) (sets_of octets.now).items) }
{
    let mut ids = Vec::new(alloc);
    let mut rest = octets;
    while !rest.is_empty() {
        let Some(((id, _), after)) = set_at(rest)? else {
            return Ok(ids);
        };
        ids.push(id)?;
        rest = after;
    }
    Ok(ids)
}
