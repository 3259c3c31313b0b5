//! Rows that wait in a buffer, beside a stack of runs.

ghost use Rattle.std.specs.Prelude.{◌≡◌, ℕ, ◌+◌, ◌<◌, List, [], IfOk, OnOk, OnErr, slice_index_or};
ghost use Rattle.flow_rows.specs.Rows.{Counted, IsRun, Small, part, total_at};
ghost use Rattle.flow_rows.specs.Stacks.{AreRuns, held_total};

use crate::folding::into_run;
use crate::merging::merge_all;
use crate::piece::Piece;
use crate::stack::push_run;
use std::alloc::{AllocError, Global};

/// Rows of so many words wait before they are sorted: 4 MB, however wide they are.
const WAITING: usize = 524_288;

/// Makes a run of the rows that wait.
pub fn flush<const K: usize, const C: usize>(
    alloc: Global,
    buffer: &mut Vec<Piece<K, C>>,
    runs: &mut Vec<Vec<Piece<K, C>>>,
) -> Result<(), AllocError>
    requires small { Small (held_total buffer.old.items runs.old.items) }
    requires counted { Counted buffer.old.items }
    requires runs { AreRuns runs.old.items }
    ensures total { (q : List ℕ) (i : ℕ) → held_total buffer.new.items runs.new.items q i
        ≡ held_total buffer.old.items runs.old.items q i }
    ensures counted { Counted buffer.new.items }
    ensures runs { AreRuns runs.new.items }
    ensures emptied { OnOk result (buffer.new.items ≡ []) }
{
    let run = into_run(alloc, buffer)?;
    push_run(runs, run)?;
    buffer.clear();
    Ok(())
}

/// Lets a row wait.
pub fn put<const K: usize, const C: usize>(
    alloc: Global,
    buffer: &mut Vec<Piece<K, C>>,
    runs: &mut Vec<Vec<Piece<K, C>>>,
    piece: &Piece<K, C>,
) -> Result<(), AllocError>
    requires small { Small (held_total buffer.old.items runs.old.items) }
    requires counted { Counted buffer.old.items }
    requires runs { AreRuns runs.old.items }
    requires piece { 0 < slice_index_or piece.now.numbers 0 0 }
    ensures total { OnOk result ((q : List ℕ) (i : ℕ)
        → held_total buffer.new.items runs.new.items q i
        ≡ held_total buffer.old.items runs.old.items q i + part q i piece.now) }
    ensures err { OnErr result ((q : List ℕ) (i : ℕ)
        → held_total buffer.new.items runs.new.items q i
        ≡ held_total buffer.old.items runs.old.items q i) }
    ensures counted { Counted buffer.new.items }
    ensures runs { AreRuns runs.new.items }
{
    if buffer.len() >= WAITING / K.saturating_add(C).max(1) {
        flush(alloc, buffer, runs)?;
    }
    buffer.push(*piece)?;
    Ok(())
}

/// All rows as one run.
pub fn into_rows<const K: usize, const C: usize>(
    alloc: Global,
    buffer: Vec<Piece<K, C>>,
    runs: Vec<Vec<Piece<K, C>>>,
) -> Result<Vec<Piece<K, C>>, AllocError>
    requires small { Small (held_total buffer.items runs.items) }
    requires counted { Counted buffer.items }
    requires runs { AreRuns runs.items }
    ensures total { IfOk result (λ rows. (q : List ℕ) (i : ℕ)
        → total_at rows.items q i ≡ held_total buffer.entry.items runs.entry.items q i) }
    ensures run { IfOk result (λ rows. IsRun rows.items) }
{
    let mut buffer = buffer;
    let mut runs = runs;
    flush(alloc, &mut buffer, &mut runs)?;
    merge_all(alloc, runs)
}
