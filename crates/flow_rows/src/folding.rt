//! Folding the rows of a buffer into a run.

ghost use Rattle.std.specs.Prelude.{◌≡◌, ℕ, ◌%◌, ◌<◌, List, IfOk, length};
ghost use Rattle.std.specs.List.Sorted.{IsPermutation};
ghost use Rattle.flow_rows.specs.Rows.{Counted, IsRun, Small, total_at, words_cmp};
ghost use Rattle.flow_rows.specs.Folded.{Rises, folded};
ghost use Rattle.flow_rows.specs.Packed.{IsOrder, in_order, row_of};

use crate::packing::{PLACES, count_keys, key_order};
use crate::piece::Piece;
use std::alloc::{AllocError, Global};
use std::cmp::Ordering;

/// Neighbours of one key become one row.
fn fold<const K: usize, const C: usize>(
    alloc: Global,
    buffer: &[Piece<K, C>],
) -> Result<Vec<Piece<K, C>>, AllocError>
    requires { Small (total_at buffer.now) }
    ensures { IfOk result (λ out. out.items ≡ folded buffer.now) }
{
    let mut out = Vec::new(alloc);
    if buffer.is_empty() {
        return Ok(out);
    }
    let mut last = buffer[0];
    for i in 1..buffer.len() {
        let next = buffer[i];
        match last.order(&next) {
            Ordering::Equal => last.add(&next),
            Ordering::Less | Ordering::Greater => {
                out.push(last)?;
                last = next;
            }
        }
    }
    out.push(last)?;
    Ok(out)
}

/// The row whose place stands in a number.
#[inline(always)]
fn row_at<const K: usize, const C: usize>(buffer: &[Piece<K, C>], number: u64) -> Piece<K, C>
    requires { number % 524288 < length buffer.now }
    ensures { result ≡ row_of buffer.now (number % 524288) }
{
    buffer[(number % PLACES) as usize]
}

/// Neighbours of one key become one row, in an order of places.
fn fold_in_order<const K: usize, const C: usize>(
    alloc: Global,
    buffer: &[Piece<K, C>],
    order: &[u64],
) -> Result<Vec<Piece<K, C>>, AllocError>
    requires order { IsOrder buffer.now order.now }
    requires small { Small (total_at buffer.now) }
    ensures { IfOk result (λ out. out.items ≡ folded (in_order buffer.now order.now)) }
{
    let mut out = Vec::with_capacity(alloc, count_keys(order))?;
    if order.is_empty() {
        return Ok(out);
    }
    let mut last = row_at(buffer, order[0]);
    for i in 1..order.len() {
        let row = row_at(buffer, order[i]);
        match last.order(&row) {
            Ordering::Equal => last.add(&row),
            Ordering::Less | Ordering::Greater => {
                out.push(last)?;
                last = row;
            }
        }
    }
    out.push(last)?;
    Ok(out)
}

/// Sorts rows by key.
fn sort<const K: usize, const C: usize>(buffer: &mut [Piece<K, C>])
    ensures permutation { IsPermutation buffer.old buffer.new }
    ensures rises { Rises buffer.new }
{
    buffer.sort_unstable_by(
        |a: &Piece<K, C>, b: &Piece<K, C>| -> Ordering
            ensures { result ≡ words_cmp a.now.key b.now.key }
        { a.order(b) },
    );
}

/// The run of a buffer's rows: sorted, and those of one key added up.
pub fn into_run<const K: usize, const C: usize>(
    alloc: Global,
    buffer: &mut [Piece<K, C>],
) -> Result<Vec<Piece<K, C>>, AllocError>
    requires small { Small (total_at buffer.old) }
    requires counted { Counted buffer.old }
    ensures total { IfOk result (λ out. (q : List ℕ) (i : ℕ)
        → total_at out.items q i ≡ total_at buffer.old q i) }
    ensures run { IfOk result (λ out. IsRun out.items) }
    ensures kept { (q : List ℕ) (i : ℕ) → total_at buffer.new q i ≡ total_at buffer.old q i }
    ensures kept_counted { Counted buffer.new }
{
    if let Some(order) = key_order(alloc, buffer) {
        return fold_in_order(alloc, buffer, &order);
    }
    sort(buffer);
    fold(alloc, buffer)
}
