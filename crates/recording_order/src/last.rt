//! The last datagrams that were written.

ghost use Rattle.std.specs.Prelude.{◌≡◌};
ghost use Rattle.recording_order.specs.Windows.{fitting, at_most};

use crate::datagram::Datagram;
use crate::limits::MOST_LAST;
use crate::lists::{count_in, first_in, fits};

/// Drops the oldest until the others take no more than a room.
pub(crate) fn fit(room: usize, last: &mut Vec<Datagram>)
    ensures { last.new.items ≡ fitting room last.old.items }
{
    while !fits(room, last) {
        let _ = last.remove(0);
    }
}

/// Drops the oldest of a domain, if there are too many of it.
pub(crate) fn limit(domain: u32, last: &mut Vec<Datagram>)
    ensures { last.new.items ≡ at_most domain last.old.items }
{
    if MOST_LAST < count_in(last, domain)
        && let Some(index) = first_in(last, domain)
    {
        let _ = last.remove(index);
    }
}
