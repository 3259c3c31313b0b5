//! Whether a datagram has a data set.

ghost use Rattle.std.specs.Prelude.{◌≡◌};
ghost use Rattle.recording_order.specs.DataSets as specs;

use ipfix_wire::{FIRST_TEMPLATE_ID, HEADER_LENGTH, SET_HEADER_LENGTH, read_set};

// Whether there is a data set among those that follow a header.
fn have_data(sets: &[u8]) -> bool
    ensures { result ≡ specs.have_data sets.now }
{
    let mut rest = sets;
    while !rest.is_empty() {
        let Ok(set) = read_set(rest) else {
            return false;
        };
        if FIRST_TEMPLATE_ID <= set.id {
            return true;
        }
        let (_, body) = rest.split_at(SET_HEADER_LENGTH);
        let (_, after) = body.split_at(set.body);
        rest = after;
    }
    false
}

/// Whether a datagram has a data set.
pub(crate) fn has_data(octets: &[u8]) -> bool
    ensures { result ≡ specs.has_data octets.now }
{
    if octets.len() < HEADER_LENGTH {
        return false;
    }
    have_data(&octets[HEADER_LENGTH..])
}
