//! The sequence numbers of a domain.

ghost use Rattle.std.specs.Prelude.{◌≡◌};
ghost use Rattle.recording_order.specs.Numbers as specs;

use crate::datagram_counts::DatagramCounts;

/// The number that is due stands here.
pub(crate) const MIDDLE: u32 = 1 << 31;

/// A number that is further away from the one that is due, either way, begins anew.
pub const FARTHEST: u32 = 65_536;

/// What is known of the sequence numbers of a domain, and what is counted there. The counts stop at `u64::MAX`.
#[derive(Clone, Copy, Debug, PartialEq, Eq)]
pub struct Numbering {
    /// The number after the furthest datagram written, as if unknown sets had no records.
    pub after: u32,
    /// Whether that number is due: the last datagram written had no unknown set.
    pub is_due: bool,
    /// How many datagrams were doubled.
    pub doubled: u64,
    /// How many were written before one that came earlier.
    pub reordered: u64,
}

/// Where the number of a datagram stands beside the one that is due.
#[derive(Clone, Copy, Debug, PartialEq, Eq)]
pub(crate) enum Standing {
    /// It is due, or before that, or none is due.
    AtOnce,
    /// It is ahead.
    Ahead,
    /// It is so far away that the numbers begin anew.
    Afar,
}

/// Where a number stands beside the one that is due.
pub(crate) fn place(due: u32, number: u32) -> u32
    ensures { result ≡ specs.place due number }
{
    number.wrapping_sub(due).wrapping_add(MIDDLE)
}

// Whether that is near.
fn is_near(place: u32) -> bool
    ensures { result ≡ specs.is_near place }
{
    MIDDLE - FARTHEST <= place && place <= MIDDLE + FARTHEST
}

// The further one of two numbers.
fn further(after: u32, number: u32) -> u32
    ensures { result ≡ specs.further after number }
{
    if place(after, number) < MIDDLE {
        after
    } else {
        number
    }
}

// Where a place is.
fn beside(place: u32) -> Standing
    ensures { result ≡ specs.beside place }
{
    if !is_near(place) {
        Standing::Afar
    } else if place <= MIDDLE {
        Standing::AtOnce
    } else {
        Standing::Ahead
    }
}

/// Where a number stands in a domain.
pub(crate) fn standing_of(numbering: Option<Numbering>, number: u32) -> Standing
    ensures { result ≡ specs.standing_of numbering number }
{
    match numbering {
        Some(known) if known.is_due => beside(place(known.after, number)),
        _ => Standing::AtOnce,
    }
}

/// Whether a number is the one that is due.
pub(crate) fn is_at_due(numbering: Option<Numbering>, number: u32) -> bool
    ensures { result ≡ specs.is_at_due numbering number }
{
    match numbering {
        Some(known) => known.is_due && known.after == number,
        None => false,
    }
}

// The number after a datagram.
fn number_after(number: u32, counts: DatagramCounts) -> u32
    ensures { result ≡ specs.number_after number counts }
{
    number.wrapping_add((counts.records % (1 << 32)) as u32)
}

impl Numbering {
    // The number after the furthest, once one was written.
    fn furthest(&self, number: u32, after: u32) -> u32
        ensures { result ≡ specs.furthest self.now number after }
    {
        if self.is_due && is_near(place(self.after, number)) {
            further(self.after, after)
        } else {
            after
        }
    }
}

/// The numbers of a domain after a datagram was written.
pub(crate) fn numbers_after(
    numbering: Option<Numbering>,
    number: u32,
    counts: DatagramCounts,
) -> Numbering
    ensures { result ≡ specs.numbers_after numbering number counts }
{
    let after = number_after(number, counts);
    let is_due = counts.unknown_sets == 0;
    match numbering {
        Some(known) => Numbering {
            after: known.furthest(number, after),
            is_due,
            doubled: known.doubled,
            reordered: known.reordered,
        },
        None => Numbering {
            after,
            is_due,
            doubled: 0,
            reordered: 0,
        },
    }
}
