//! How many starts of IPv6 are not above an address.

ghost use Rattle.std.specs.Prelude.{◌≡◌, ◌≤◌, true, length};
ghost use Rattle.std.specs.List.Sorted.{IsNonDecreasing};
ghost use Rattle.prefix_numbers.specs.Steps.{steps_to};

use crate::guide::{Guide, head_of};

/// As many last bits of addresses the guide leaves out: networks are rarely smaller.
pub const LEFT_OUT: u32 = 64;

/// How many starts are not above an address.
#[inline]
pub fn ipv6_steps(guide: &Guide, starts: &[u128], address: u128) -> usize
    requires { IsNonDecreasing starts.now }
    ensures { result ≡ steps_to starts.now address }
{
    let (low, high) = guide.places_at(head_of(address, LEFT_OUT));
    let first = next_place(starts, first_place(starts, low, address), address);
    if is_end(starts, first, address) {
        return first;
    }
    let end = end_place(starts, high, address);
    first + starts[first..end].partition_point(|start| *start <= address)
}

// A place before which no start is above an address: the one that is guessed, or else 0.
#[inline]
#[tactic(auto, using(crate::proofs::Ascending::places_up_to))]
fn first_place(starts: &[u128], guess: usize, address: u128) -> usize
    requires { IsNonDecreasing starts.now }
    ensures { result ≤ steps_to starts.now address }
{
    match starts.get(guess.saturating_sub(1)) {
        Some(start) if *start <= address => guess,
        _ => 0,
    }
}

// A place before which no start is above an address, or the one after it, if the start there is not above it either.
#[inline]
#[tactic(auto, using(crate::proofs::Ascending::place_up_to))]
fn next_place(starts: &[u128], place: usize, address: u128) -> usize
    requires ascending { IsNonDecreasing starts.now }
    requires place { place ≤ steps_to starts.now address }
    ensures { result ≤ steps_to starts.now address }
{
    match starts.get(place) {
        Some(start) => place + (*start <= address) as usize,
        None => place,
    }
}

// Whether there is a start at a place, which is above an address.
#[inline]
#[tactic(auto, using(crate::proofs::Ascending::places_not_above))]
fn is_end(starts: &[u128], place: usize, address: u128) -> bool
    ensures within { result ≡ true → place ≤ length starts.now }
    ensures above { result ≡ true → steps_to starts.now address ≤ place }
{
    match starts.get(place) {
        Some(start) => *start > address,
        None => false,
    }
}

// A place from which on all starts are above an address: the one that is guessed, or else their end.
#[inline]
#[tactic(auto, using(crate::proofs::Ascending::places_inside))]
fn end_place(starts: &[u128], guess: usize, address: u128) -> usize
    ensures within { result ≤ length starts.now }
    ensures above { steps_to starts.now address ≤ result }
{
    if is_end(starts, guess, address) {
        guess
    } else {
        starts.len()
    }
}
