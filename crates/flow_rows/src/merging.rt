//! Merging runs.

ghost use Rattle.std.specs.Prelude.{◌≡◌, ◌+◌, ◌++◌, ◌≤◌, ℕ, List, IfOk, OnOk, OnErr, drop, length, take};
ghost use Rattle.flow_rows.specs.Rows.{IsRun, Small, total_at};
ghost use Rattle.flow_rows.specs.Stacks.{AreRuns, stack_total};

use crate::lookup::search;
use crate::piece::Piece;
use std::alloc::{AllocError, Global};
use std::cmp::Ordering;
use std::ops::Range;

/// The place from which on the rows of a newer run are above all of an older one.
fn place_above<const K: usize, const C: usize>(
    rows: &[Piece<K, C>],
    older: usize,
    newer: &[Piece<K, C>],
) -> usize
    requires within { older ≤ length rows.now }
    requires older { IsRun (take older rows.now) }
    requires newer { IsRun newer.now }
    ensures within { result ≤ length newer.now }
    ensures run { IsRun (take older rows.now ++ drop result newer.now) }
{
    if older == 0 {
        return 0;
    }
    match search(newer, &rows[older - 1]) {
        Ok(place) => place + 1,
        Err(place) => place,
    }
}

/// Merges a newer run into an older one, the greatest key first, and adds up rows of one key. The newer stands
/// after the older, and there those of its rows stay that are above all of the older. The merged rows stand
/// before and after the places of the answer, whose rows are left over.
fn merge_down<const K: usize, const C: usize>(
    rows: &mut [Piece<K, C>],
    older: usize,
    newer: &[Piece<K, C>],
) -> Range<usize>
    requires room { length rows.old ≡ older + length newer.now }
    requires tail { drop older rows.old ≡ newer.now }
    requires small { Small (λ q i. total_at (take older rows.old) q i + total_at newer.now q i) }
    requires older { IsRun (take older rows.old) }
    requires newer { IsRun newer.now }
    ensures length { length rows.new ≡ length rows.old }
    ensures within { result.start ≤ result.end × result.end ≤ length rows.new }
    ensures total { (q : List ℕ) (i : ℕ)
        → total_at (take result.start rows.new ++ drop result.end rows.new) q i
        ≡ total_at (take older rows.old) q i + total_at newer.now q i }
    ensures run { IsRun (take result.start rows.new ++ drop result.end rows.new) }
{
    let mut i = older;
    let mut j = place_above(rows, older, newer);
    let mut place = older + j;
    while i > 0 && j > 0 {
        place -= 1;
        match rows[i - 1].order(&newer[j - 1]) {
            Ordering::Less => {
                j -= 1;
                rows[place] = newer[j];
            }
            Ordering::Equal => {
                i -= 1;
                j -= 1;
                let mut both = rows[i];
                both.add(&newer[j]);
                rows[place] = both;
            }
            Ordering::Greater => {
                i -= 1;
                rows[place] = rows[i];
            }
        }
    }
    rows[i..i + j].copy_from_slice(&newer[..j]);
    i + j..place
}

/// Merges a newer run into another, in the vector of that: it takes room only for the newer run. After an
/// `Err` it is what it was.
pub fn merge_into<const K: usize, const C: usize>(
    run: &mut Vec<Piece<K, C>>,
    newer: &[Piece<K, C>],
) -> Result<(), AllocError>
    requires small { Small (λ q i. total_at run.old.items q i + total_at newer.now q i) }
    requires run { IsRun run.old.items }
    requires newer { IsRun newer.now }
    ensures total { OnOk result ((q : List ℕ) (i : ℕ)
        → total_at run.new.items q i ≡ total_at run.old.items q i + total_at newer.now q i) }
    ensures run { IsRun run.new.items }
    ensures err { OnErr result (run.new.items ≡ run.old.items) }
{
    let older = run.len();
    run.extend_from_slice(newer)?;
    let gap = merge_down(run, older, newer);
    if gap.start < gap.end {
        run.copy_within(gap.end.., gap.start);
        run.truncate(run.len() - (gap.end - gap.start));
    }
    Ok(())
}

/// Two runs as one, in the vector of the longer.
pub fn merge_two<const K: usize, const C: usize>(
    run: Vec<Piece<K, C>>,
    other: Vec<Piece<K, C>>,
) -> Result<Vec<Piece<K, C>>, AllocError>
    requires small { Small (λ q i. total_at run.items q i + total_at other.items q i) }
    requires run { IsRun run.items }
    requires other { IsRun other.items }
    ensures total { IfOk result (λ both. (q : List ℕ) (i : ℕ) → total_at both.items q i
        ≡ total_at run.entry.items q i + total_at other.entry.items q i) }
    ensures run { IfOk result (λ both. IsRun both.items) }
{
    let (mut longer, shorter) = if run.len() < other.len() {
        (other, run)
    } else {
        (run, other)
    };
    merge_into(&mut longer, &shorter)?;
    Ok(longer)
}

/// A run merged with all runs of a stack.
fn merge_onto<const K: usize, const C: usize>(
    runs: Vec<Vec<Piece<K, C>>>,
    run: Vec<Piece<K, C>>,
) -> Result<Vec<Piece<K, C>>, AllocError>
    requires small { Small (λ q i. stack_total runs.items q i + total_at run.items q i) }
    requires runs { AreRuns runs.items }
    requires run { IsRun run.items }
    ensures total { IfOk result (λ out. (q : List ℕ) (i : ℕ) → total_at out.items q i
        ≡ stack_total runs.entry.items q i + total_at run.entry.items q i) }
    ensures run { IfOk result (λ out. IsRun out.items) }
{
    let mut runs = runs;
    let mut run = run;
    while let Some(top) = runs.pop() {
        run = merge_two(top, run)?;
    }
    Ok(run)
}

/// One run of all runs of a stack.
pub fn merge_all<const K: usize, const C: usize>(
    alloc: Global,
    runs: Vec<Vec<Piece<K, C>>>,
) -> Result<Vec<Piece<K, C>>, AllocError>
    requires small { Small (stack_total runs.items) }
    requires runs { AreRuns runs.items }
    ensures total { IfOk result (λ out. (q : List ℕ) (i : ℕ)
        → total_at out.items q i ≡ stack_total runs.entry.items q i) }
    ensures run { IfOk result (λ out. IsRun out.items) }
{
    let mut runs = runs;
    match runs.pop() {
        Some(run) => merge_onto(runs, run),
        None => Ok(Vec::new(alloc)),
    }
}
