//! Writing a row's number to the steps that its prefix has.

ghost use Rattle.std.specs.Prelude.{◌≡◌, ◌≤◌, ◌<◌, length, nat_lt};
ghost use Rattle.std.specs.List.{prefix_len};
ghost use Rattle.std.specs.List.Sorted.{IsNonDecreasing};
ghost use Rattle.prefix_numbers.specs.Paints.{end_place, IsFilled, IsPainted};

use crate::row::NumberedPrefix;
use crate::starts::after;
use network_prefixes::Prefix;

/// Writes a row's number beside each start that its prefix has.
pub fn paint(starts: &[u128], numbers: &mut [u32], row: &NumberedPrefix)
    requires beside { length numbers.old ≡ length starts.now }
    requires ascending { IsNonDecreasing starts.now }
    ensures { IsPainted starts.now row.now numbers.old numbers.new }
{
    let first = places_below(starts, row.prefix.address.bits);
    let end = end_place_of(starts, &row.prefix);
    fill(numbers, first, end, row.number);
}

// How many starts are before the end of a prefix.
fn end_place_of(starts: &[u128], prefix: &Prefix) -> usize
    requires { IsNonDecreasing starts.now }
    ensures { result ≡ end_place starts.now prefix.now }
{
    match after(prefix) {
        Some(end) => places_below(starts, end),
        None => starts.len(),
    }
}

// How many starts are below an address.
fn places_below(starts: &[u128], address: u128) -> usize
    requires { IsNonDecreasing starts.now }
    ensures { result ≡ prefix_len (λ start. nat_lt start address) starts.now }
{
    starts.partition_point(|start| *start < address)
}

// Writes a number to the places from the first to before the end.
fn fill(numbers: &mut [u32], first: usize, end: usize, number: u32)
    requires { end ≤ length numbers.old }
    ensures { IsFilled first end number numbers.old numbers.new }
{
    for place in first..end {
        numbers[place] = number;
    }
}
