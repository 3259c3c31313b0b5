//! The octets of a field (RFC 7011, section 7).

ghost use Rattle.std.specs.Prelude.{◌≡◌, ◌<◌, ◌^◌, length, IfSome};
ghost use Rattle.std.specs.Option.{option_map};
ghost use Rattle.ipfix_message.specs.SpelledFields.{value_at, unless_cut};

use ipfix_wire::{VARIABLE_WIDTH, read_length};

/// The octets of a field of this width, and what follows them. `None` is a field that is cut.
#[inline(always)]
#[tactic(auto, unfolding(crate::specs::SpelledFields::value_at))]
pub fn value_of(width: u16, rest: &[u8]) -> Option<(&[u8], &[u8])>
    ensures gives { value_at width rest.now
        ≡ unless_cut (option_map (λ x. (x.0.now, x.1.now)) result) }
    ensures short { IfSome result (λ x. length x.0.now < 2 ^ 16) }
{
    let (len, rest) = if width == VARIABLE_WIDTH {
        let (len, used) = read_length(rest)?;
        (len, &rest[used..])
    } else {
        (usize::from(width), rest)
    };
    if rest.len() < len {
        return None;
    }
    Some(rest.split_at(len))
}
