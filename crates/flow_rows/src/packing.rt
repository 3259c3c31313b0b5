//! The order of rows by key, from numbers that keys are packed into: a sort moves these faster than rows.

ghost use Rattle.std.specs.Prelude.{◌≡◌, ◌/◌, ◌%◌, ◌<◌, ◌≤◌, IfSome, length};
ghost use Rattle.flow_rows.specs.Packed as packed;
ghost use Rattle.flow_rows.specs.Packed.{ArePacked, IsBetween, IsOrder, IsWithin, digit_onto, packed_onto, word_onto};

use crate::piece::Piece;
use std::alloc::Global;

/// The place of a row stands below this, 2^19, in the number that its key is packed into.
pub const PLACES: u64 = 524_288;

/// So many rows are looked at before all are.
const FEW: usize = 256;

/// So many numbers have room in half a word.
const HALF: u64 = 4_294_967_296;

/// The higher half of a word.
#[inline(always)]
fn high(word: u64) -> u64
    ensures { result ≡ packed.high word }
{
    word / HALF
}

/// The lower half of a word.
#[inline(always)]
fn low(word: u64) -> u64
    ensures { result ≡ packed.low word }
{
    word % HALF
}

/// A number and then a digit, in the base of what there is from the least half to the greatest, or `None` if the
/// half is not one of these or there is no room.
#[inline(always)]
fn push_digit(number: u64, least: u64, most: u64, half: u64) -> Option<u64>
    ensures packed { IfSome result (λ n. n ≡ digit_onto number least most half) }
    ensures within { IfSome result (λ n. (least ≤ half) × (half ≤ most)) }
{
    if half < least || most < half {
        return None;
    }
    if least == most {
        return Some(number);
    }
    let span = (most - least).checked_add(1)?;
    let higher = number.checked_mul(span)?;
    higher.checked_add(half - least)
}

/// A number and then the halves of a word. Short cells that are neighbours share a word, so each half has a span.
#[inline(always)]
fn push_word(number: u64, least: u64, most: u64, word: u64) -> Option<u64>
    ensures packed { IfSome result (λ n. n ≡ word_onto number least most word) }
    ensures within { IfSome result (λ n. IsBetween least most word) }
{
    if least == most {
        return if word == least { Some(number) } else { None };
    }
    let higher = push_digit(number, high(least), high(most), high(word))?;
    push_digit(higher, low(least), low(most), low(word))
}

/// The words as one number, or `None` if a half isn't within those of its column or there is no room in 64 bits.
#[inline(always)]
fn pack(words: &[u64], least: &[u64], most: &[u64]) -> Option<u64>
    requires least { length least.now ≡ length words.now }
    requires most { length most.now ≡ length words.now }
    ensures packed { IfSome result (λ n. n ≡ packed_onto 0 least.now most.now words.now) }
    ensures within { IfSome result (λ n. IsWithin least.now most.now words.now) }
{
    let mut number: u64 = 0;
    for i in 0..words.len() {
        let Some(more) = push_word(number, least[i], most[i], words[i]) else {
            return None;
        };
        number = more;
    }
    Some(number)
}

/// A row's key as one number, above the place of the row.
#[inline(always)]
fn pack_row<const K: usize, const C: usize>(
    row: &Piece<K, C>,
    place: u64,
    least: &[u64; K],
    most: &[u64; K],
) -> Option<u64>
    requires { place < 524288 }
    ensures place { IfSome result (λ n. n % 524288 ≡ place) }
    ensures words { IfSome result (λ n.
        n / 524288 ≡ packed_onto 0 least.now most.now row.now.key) }
    ensures within { IfSome result (λ n. IsWithin least.now most.now row.now.key) }
{
    let Some(words) = pack(&row.key(), least, most) else {
        return None;
    };
    let Some(higher) = words.checked_mul(PLACES) else {
        return None;
    };
    higher.checked_add(place)
}

/// Each row's key as one number, above its place, or `None` if one doesn't fit or there is no memory.
fn pack_rows<const K: usize, const C: usize>(
    alloc: Global,
    buffer: &[Piece<K, C>],
    least: &[u64; K],
    most: &[u64; K],
) -> Option<Vec<u64>>
    requires { length buffer.now ≤ 524288 }
    ensures { IfSome result (λ order.
        ArePacked least.now most.now buffer.now order.items) }
{
    let Ok(mut order) = Vec::with_capacity(alloc, buffer.len()) else {
        return None;
    };
    for i in 0..buffer.len() {
        let Some(number) = pack_row(&buffer[i], i as u64, least, most) else {
            return None;
        };
        let Ok(()) = order.push(number) else {
            return None;
        };
    }
    Some(order)
}

/// Leaves in `least` only the bits that the words have, too, and adds to `most` those that they have.
#[inline(always)]
fn widen(least: &mut [u64], most: &mut [u64], words: &[u64])
    requires least { length least.old ≡ length words.now }
    requires most { length most.old ≡ length words.now }
{
    for i in 0..words.len() {
        least[i] &= words[i];
        most[i] |= words[i];
    }
}

/// How many numbers there are from the least to the greatest.
fn span(least: u64, most: u64) -> u64 {
    most.saturating_sub(least).saturating_add(1)
}

/// Whether words whose halves are from the least to the greatest, and a place, have room in 64 bits.
fn have_room(least: &[u64], most: &[u64]) -> bool
    requires { length most.now ≡ length least.now }
{
    let mut all = PLACES;
    for i in 0..least.len() {
        let higher = all.saturating_mul(span(high(least[i]), high(most[i])));
        all = higher.saturating_mul(span(low(least[i]), low(most[i])));
    }
    all < u64::MAX
}

/// For each column the bits that all of its words have, and those that some have: no half is below the first, or
/// above the second. They only matter for speed: `pack` asks of each row whether it is within.
fn frame<const K: usize, const C: usize>(buffer: &[Piece<K, C>]) -> ([u64; K], [u64; K]) {
    let mut least = [u64::MAX; K];
    let mut most = [0; K];
    for i in 0..buffer.len() {
        widen(&mut least, &mut most, &buffer[i].key());
    }
    (least, most)
}

/// Whether the words of some rows and a place have room in 64 bits.
fn are_narrow<const K: usize, const C: usize>(rows: &[Piece<K, C>]) -> bool {
    let (least, most) = frame(rows);
    have_room(&least, &most)
}

/// The numbers of all rows, sorted.
fn sorted_numbers<const K: usize, const C: usize>(
    alloc: Global,
    buffer: &[Piece<K, C>],
    least: &[u64; K],
    most: &[u64; K],
) -> Option<Vec<u64>>
    requires { length buffer.now ≤ 524288 }
    ensures { IfSome result (λ order. IsOrder buffer.now order.items) }
{
    let Some(mut order) = pack_rows(alloc, buffer, least, most) else {
        return None;
    };
    order.sort_unstable();
    Some(order)
}

/// The rows of a buffer in the order of their keys, or `None` if keys are too wide or there is no memory.
/// A few rows mostly tell that keys are too wide.
pub fn key_order<const K: usize, const C: usize>(
    alloc: Global,
    buffer: &[Piece<K, C>],
) -> Option<Vec<u64>>
    ensures { IfSome result (λ order. IsOrder buffer.now order.items) }
{
    if buffer.len() > 524_288 || !are_narrow(&buffer[..buffer.len().min(FEW)]) {
        return None;
    }
    let (least, most) = frame(buffer);
    if !have_room(&least, &most) {
        return None;
    }
    sorted_numbers(alloc, buffer, &least, &most)
}

/// How many different keys there are in an order.
pub fn count_keys(order: &[u64]) -> usize {
    let mut count: usize = 1;
    for i in 1..order.len() {
        if order[i] / PLACES != order[i - 1] / PLACES {
            count += 1;
        }
    }
    count
}
