//! The last message of a domain that is kept.

ghost use Rattle.std.specs.Prelude.{◌≡◌};
ghost use Rattle.recording_resumption.specs.Resumption as specs;

use ipfix_wire::Header;
use recording_order::FARTHEST;

/// What the last message of a domain says that is kept (RFC 7011, section 3.1).
#[derive(Clone, Copy, Debug, PartialEq, Eq)]
pub struct LastMessage {
    /// Its sequence number.
    pub sequence: u32,
    /// The sequence number that is due after it. `None` if it has a set whose records could not be counted.
    pub due: Option<u32>,
    /// Its export time, in seconds since 1970.
    pub export_time: u32,
}

// How far a number is above another, modulo 2^32.
fn gap(other: u32, number: u32) -> u32
    ensures { result ≡ specs.gap other number }
{
    number.wrapping_sub(other)
}

// Whether a number is before another.
fn is_before(number: u32, other: u32) -> bool
    ensures { result ≡ specs.is_before number other }
{
    gap(other, number) >= 1 << 31
}

// Whether a number is too far ahead of the one that is due.
fn is_too_far(number: u32, due: u32) -> bool
    ensures { result ≡ specs.is_too_far number due }
{
    !is_before(number, due) && gap(due, number) > FARTHEST
}

impl LastMessage {
    /// Whether a datagram with this header goes on after it: its number isn't before this one's, nor more than
    /// 65,536 ahead of the one that is due (of this one's, if none is due), and its export time isn't earlier.
    /// Numbers are modulo 2^32: a step of 2^31 or more goes backward.
    pub fn goes_on(&self, header: &Header) -> bool
        ensures { result ≡ specs.goes_on self.now header.now }
    {
        let due = self.due.unwrap_or(self.sequence);
        !is_before(header.sequence, self.sequence)
            && !is_too_far(header.sequence, due)
            && self.export_time <= header.export_time
    }
}
