//! One place after another, over the rows of all tables.

ghost use Rattle.std.specs.Prelude.{◌≡◌, ◌+◌, ◌^◌, ◌<◌, ◌≤◌, None, All, true, false, length, map, IfOk, IfSome, OnOk};
ghost use Rattle.flow_table.specs.Tables.{place_of};
ghost use Rattle.largest_sessions.specs.Walks.{Ascend, Continues, FirstsFit, HasMost, IsFirstOf, StartsFirst, after_place, first_numbers};

use crate::cursor::Cursor;
use flow_table::Row;
use std::alloc::AllocError;

// Which cursor has its next row at the first place of all, up to that of an index, by the same up to the one before it.
#[tactic(auto, using(crate::proofs::FirstRows::first_stays, crate::proofs::FirstRows::first_alone, crate::proofs::FirstRows::first_changes, crate::proofs::FirstRows::first_kept))]
fn next_first(cursors: &[Cursor], index: usize, first: Option<usize>) -> Option<usize>
    requires inside { index < length cursors.now }
    requires first { IsFirstOf cursors.now index first }
    ensures { IsFirstOf cursors.now (index + 1) result }
{
    let Some(row) = cursors[index].row() else {
        return first;
    };
    let Some(other) = first else {
        return Some(index);
    };
    if cursors[other].is_after(row) {
        Some(index)
    } else {
        first
    }
}

/// Which cursor has its next row at the first place of all.
pub(crate) fn first_cursor(cursors: &[Cursor]) -> Option<usize>
    ensures { IsFirstOf cursors.now (length cursors.now) result }
{
    let mut first = None;
    for index in 0..cursors.len() {
        first = next_first(cursors, index, first);
    }
    first
}

// Whether all tables together have 2^64 or more at a place: of the number of an index.
#[tactic(auto, using(crate::proofs::FirstRows::one_more))]
fn is_too_large(cursors: &[Cursor], place: &Row, number: usize) -> bool
    ensures yes { result ≡ true → 2 ^ 64 ≤ first_numbers cursors.now (place_of place.now) number }
    ensures no { result ≡ false → first_numbers cursors.now (place_of place.now) number < 2 ^ 64 }
{
    let mut total: u64 = 0;
    for cursor in cursors {
        let Some(sum) = total.checked_add(cursor.number_at(place, number)) else {
            return true;
        };
        total = sum;
    }
    false
}

// The first of so many numbers at a place that has no room in 64 bits.
fn large_number(cursors: &[Cursor], place: &Row, count: usize) -> Option<usize>
    ensures inside { IfSome result (λ n. n < count) }
    ensures large { IfSome result
        (λ n. 2 ^ 64 ≤ first_numbers cursors.now (place_of place.now) n) }
    ensures first { IfSome result (λ n. FirstsFit n cursors.now (place_of place.now)) }
    ensures none { result ≡ None → FirstsFit count cursors.now (place_of place.now) }
{
    for number in 0..count {
        if is_too_large(cursors, place, number) {
            return Some(number);
        }
    }
    None
}

// The cursor that has most at a place, the first of several: of the number of an index.
#[tactic(auto, using(crate::proofs::FirstRows::most_alone, crate::proofs::FirstRows::most_changes, crate::proofs::FirstRows::most_stays))]
fn most_at(cursors: &[Cursor], place: &Row, number: usize) -> usize
    requires { 0 < length cursors.now }
    ensures { HasMost cursors.now (length cursors.now) (place_of place.now) number result }
{
    let mut most = 0;
    for index in 1..cursors.len() {
        let number_there = cursors[index].number_at(place, number);
        if number_there > cursors[most].number_at(place, number) {
            most = index;
        }
    }
    most
}

// Goes on after a place.
fn pass_place(cursors: &mut [Cursor], place: &Row) -> Result<(), AllocError>
    ensures { OnOk result (cursors.new ≡ map (after_place (place_of place.now)) cursors.old) }
{
    for cursor in cursors {
        cursor.pass(place)?;
    }
    Ok(())
}

/// Leaves out a session, if some number of the first place is too large, and otherwise goes on after that place. The
/// index is that of a cursor there, and `place` is room for its row.
pub(crate) fn step(
    cursors: &mut [Cursor],
    first: usize,
    count: usize,
    place: &mut Row,
) -> Result<Option<usize>, AllocError>
    requires ascend { All Ascend cursors.old }
    requires first { StartsFirst cursors.old (length cursors.old) first }
    ensures { IfOk result (Continues count cursors.old cursors.new) }
{
    cursors[first].write_row(place)?;
    let Some(number) = large_number(cursors, place, count) else {
        pass_place(cursors, place)?;
        return Ok(None);
    };
    let most = most_at(cursors, place, number);
    cursors[most].close();
    Ok(Some(most))
}
