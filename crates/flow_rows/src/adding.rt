//! Adding a row to a pile, or to the runs that lie apart from it.

ghost use Rattle.std.specs.Prelude.{◌≡◌, ℕ, ◌+◌, ◌<◌, ◌≤◌, List, IfOk, IsErrOf, MatchBool, OnErr, OnOk, slice_index_or};
ghost use Rattle.flow_rows.specs.Rows.{Small, SomeTooLarge, part, total_at};
ghost use Rattle.flow_rows.specs.Stacks.{AreRuns, held_total, stack_total};
ghost use Rattle.flow_rows.specs.declared.table.AddError.TheVariants.{SumTooLarge};

use crate::held::held;
use crate::piece::Piece;
use crate::pile::Pile;
use crate::shedding::GREAT;
use crate::stack::push_run;
use crate::table::AddError;
use std::alloc::{AllocError, Global};

/// Whether all numbers are below 2^64 once a row is added.
fn stays_small<const K: usize, const C: usize>(
    alloc: Global,
    pile: &mut Pile<K, C>,
    apart: &[Vec<Piece<K, C>>],
    piece: &Piece<K, C>,
) -> Result<bool, AllocError>
    requires small { Small (held_total pile.old apart.now) }
    requires runs { AreRuns apart.now }
    ensures total { (q : List ℕ) (i : ℕ) → total_at pile.new q i ≡ total_at pile.old q i }
    ensures small { IfOk result (λ small. MatchBool small
        (Small (λ q i. held_total pile.old apart.now q i + part q i piece.now))
        (SomeTooLarge (λ i. held_total pile.old apart.now piece.now.key i
        + slice_index_or piece.now.numbers i 0))) }
{
    let mut sums = held(apart, piece);
    let Some(most) = sums.greatest_sum(piece) else {
        return Ok(false);
    };
    if pile.bound() <= u64::MAX - most {
        return Ok(true);
    }
    let usual = pile.held(alloc, piece)?;
    sums.add(&usual);
    match sums.greatest_sum(piece) {
        Some(_) => Ok(true),
        None => Ok(false),
    }
}

/// Lays a row apart.
fn lay_apart<const K: usize, const C: usize>(
    alloc: Global,
    apart: &mut Vec<Vec<Piece<K, C>>>,
    piece: &Piece<K, C>,
) -> Result<(), AllocError>
    requires small { Small (λ q i. stack_total apart.old.items q i + part q i piece.now) }
    requires runs { AreRuns apart.old.items }
    requires piece { 0 < slice_index_or piece.now.numbers 0 0 }
    ensures total { OnOk result ((q : List ℕ) (i : ℕ) → stack_total apart.new.items q i
        ≡ stack_total apart.old.items q i + part q i piece.now) }
    ensures err { OnErr result (apart.new.items ≡ apart.old.items) }
    ensures runs { AreRuns apart.new.items }
{
    let mut run = Vec::new(alloc);
    run.push(*piece)?;
    push_run(apart, run)
}

/// Lets a row wait if it isn't great and the bound allows it, and lays it apart otherwise.
fn place<const K: usize, const C: usize>(
    alloc: Global,
    pile: &mut Pile<K, C>,
    apart: &mut Vec<Vec<Piece<K, C>>>,
    piece: &Piece<K, C>,
    most: u64,
) -> Result<(), AllocError>
    requires small { Small (λ q i. held_total pile.old apart.old.items q i + part q i piece.now) }
    requires runs { AreRuns apart.old.items }
    requires most { (i : ℕ) → slice_index_or piece.now.numbers i 0 ≤ most }
    requires piece { 0 < slice_index_or piece.now.numbers 0 0 }
    ensures total { OnOk result ((q : List ℕ) (i : ℕ) → held_total pile.new apart.new.items q i
        ≡ held_total pile.old apart.old.items q i + part q i piece.now) }
    ensures err { OnErr result ((q : List ℕ) (i : ℕ) → held_total pile.new apart.new.items q i
        ≡ held_total pile.old apart.old.items q i) }
    ensures runs { AreRuns apart.new.items }
{
    if most >= GREAT {
        return lay_apart(alloc, apart, piece);
    }
    if pile.wait(alloc, piece, most)? {
        return Ok(());
    }
    pile.shed(alloc, apart)?;
    if pile.wait(alloc, piece, most)? {
        return Ok(());
    }
    lay_apart(alloc, apart, piece)
}

/// Adds a row that is great, or one while rows lie apart, or while the bound is high.
#[cold]
#[inline(never)]
fn add_with_care<const K: usize, const C: usize>(
    alloc: Global,
    pile: &mut Pile<K, C>,
    apart: &mut Vec<Vec<Piece<K, C>>>,
    piece: &Piece<K, C>,
    most: u64,
) -> Result<(), AddError>
    requires small { Small (held_total pile.old apart.old.items) }
    requires runs { AreRuns apart.old.items }
    requires most { (i : ℕ) → slice_index_or piece.now.numbers i 0 ≤ most }
    requires piece { 0 < slice_index_or piece.now.numbers 0 0 }
    ensures total { OnOk result ((q : List ℕ) (i : ℕ) → held_total pile.new apart.new.items q i
        ≡ held_total pile.old apart.old.items q i + part q i piece.now) }
    ensures small { Small (held_total pile.new apart.new.items) }
    ensures err { OnErr result ((q : List ℕ) (i : ℕ) → held_total pile.new apart.new.items q i
        ≡ held_total pile.old apart.old.items q i) }
    ensures runs { AreRuns apart.new.items }
    ensures too_large { IsErrOf result SumTooLarge
        → SomeTooLarge (λ i. held_total pile.old apart.old.items piece.now.key i
        + slice_index_or piece.now.numbers i 0) }
{
    let Ok(small) = stays_small(alloc, pile, apart, piece) else {
        return Err(AddError::OutOfMemory);
    };
    if !small {
        return Err(AddError::SumTooLarge);
    }
    match place(alloc, pile, apart, piece, most) {
        Ok(()) => Ok(()),
        Err(_) => Err(AddError::OutOfMemory),
    }
}

/// Adds a row. After an `Err` the totals are what they were.
pub fn add_row<const K: usize, const C: usize>(
    alloc: Global,
    pile: &mut Pile<K, C>,
    apart: &mut Vec<Vec<Piece<K, C>>>,
    piece: &Piece<K, C>,
) -> Result<(), AddError>
    requires small { Small (held_total pile.old apart.old.items) }
    requires runs { AreRuns apart.old.items }
    requires piece { 0 < slice_index_or piece.now.numbers 0 0 }
    ensures total { OnOk result ((q : List ℕ) (i : ℕ) → held_total pile.new apart.new.items q i
        ≡ held_total pile.old apart.old.items q i + part q i piece.now) }
    ensures small { Small (held_total pile.new apart.new.items) }
    ensures err { OnErr result ((q : List ℕ) (i : ℕ) → held_total pile.new apart.new.items q i
        ≡ held_total pile.old apart.old.items q i) }
    ensures runs { AreRuns apart.new.items }
    ensures too_large { IsErrOf result SumTooLarge
        → SomeTooLarge (λ i. held_total pile.old apart.old.items piece.now.key i
        + slice_index_or piece.now.numbers i 0) }
{
    let most = piece.greatest();
    if most >= GREAT || !apart.is_empty() {
        return add_with_care(alloc, pile, apart, piece, most);
    }
    let Ok(waits) = pile.wait(alloc, piece, most) else {
        return Err(AddError::OutOfMemory);
    };
    if waits {
        return Ok(());
    }
    add_with_care(alloc, pile, apart, piece, most)
}
