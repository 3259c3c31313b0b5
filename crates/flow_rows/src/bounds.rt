//! Bounds of all numbers, and whether one would be too large.

ghost use Rattle.std.specs.Prelude.{◌+◌, ◌≤◌, ℕ, List, MatchOption, MatchResult, slice_index_or};
ghost use Rattle.flow_rows.specs.Rows.{IsRun, SomeTooLarge, total_at};

use crate::lookup::find;
use crate::piece::Piece;

/// The greatest number of a row's key in a run once the row is added, or `None` if one would reach 2^64.
fn greatest_at<const K: usize, const C: usize>(
    run: &[Piece<K, C>],
    piece: &Piece<K, C>,
) -> Option<u64>
    requires { IsRun run.now }
    ensures { MatchOption result
        (SomeTooLarge (λ i.
        total_at run.now piece.now.key i + slice_index_or piece.now.numbers i 0))
        (λ most. (i : ℕ)
        → total_at run.now piece.now.key i + slice_index_or piece.now.numbers i 0 ≤ most) }
{
    match find(run, piece) {
        Some(row) => row.greatest_sum(piece),
        None => Some(piece.greatest()),
    }
}

/// The greatest number of all keys of two runs, or a key of which one reaches 2^64.
fn greatest_of_both<const K: usize, const C: usize>(
    a: &[Piece<K, C>],
    b: &[Piece<K, C>],
    bound: u64,
) -> Result<u64, [u64; K]>
    requires a_run { IsRun a.now }
    requires b_run { IsRun b.now }
    requires within { (q : List ℕ) (i : ℕ) → total_at b.now q i ≤ bound }
    ensures { MatchResult result
        (λ most. (q : List ℕ) (i : ℕ) → total_at a.now q i + total_at b.now q i ≤ most)
        (λ key. SomeTooLarge (λ i. total_at a.now key i + total_at b.now key i)) }
{
    let mut most = bound;
    for i in 0..a.len() {
        let row = &a[i];
        let Some(here) = greatest_at(b, row) else {
            return Err(row.key());
        };
        most = most.max(here);
    }
    Ok(most)
}

/// A bound of the numbers of two runs once they are merged, or a key of which one would reach 2^64.
pub fn merged_bound<const K: usize, const C: usize>(
    a: &[Piece<K, C>],
    b: &[Piece<K, C>],
    a_bound: u64,
    b_bound: u64,
) -> Result<u64, [u64; K]>
    requires a_run { IsRun a.now }
    requires b_run { IsRun b.now }
    requires a_within { (q : List ℕ) (i : ℕ) → total_at a.now q i ≤ a_bound }
    requires b_within { (q : List ℕ) (i : ℕ) → total_at b.now q i ≤ b_bound }
    ensures { MatchResult result
        (λ most. (q : List ℕ) (i : ℕ) → total_at a.now q i + total_at b.now q i ≤ most)
        (λ key. SomeTooLarge (λ i. total_at a.now key i + total_at b.now key i)) }
{
    if let Some(bound) = a_bound.checked_add(b_bound) {
        return Ok(bound);
    }
    greatest_of_both(a, b, b_bound)
}
