//! A pile of rows: those that wait, a stack of runs, and a bound of all numbers.

ghost use Rattle.std.specs.Prelude.{◌≡◌, ℕ, ◌+◌, ◌<◌, ◌≤◌, if◌then◌else◌, List, IfOk, OnErr, slice_index_or};
ghost use Rattle.flow_rows.specs.Rows.{IsRun, Small, part, total_at};
ghost use Rattle.flow_rows.specs.Stacks.{AreRuns, held_total};

use crate::held::held;
use crate::piece::Piece;
use crate::shedding::{bound_of, shed_runs};
use crate::stack::push_run;
use crate::waiting::{flush, into_rows, put};
use std::alloc::{AllocError, Global};
use std::marker::Model;

/// Rows whose numbers are usual, so that their bound is no limit.
#[derive(Drop)]
pub struct Pile<const K: usize, const C: usize> {
    buffer: Vec<Piece<K, C>>,
    runs: Vec<Vec<Piece<K, C>>>,
    bound: u64,
}

impl<const K: usize, const C: usize> Model for Pile<K, C> {
    ghost use Rattle.std.specs.Prelude.{List};
    ghost use Rattle.flow_rows.specs.Rows.{Row};
    ghost use Rattle.flow_rows.specs.Stacks.{Holds, all_rows};

    ghost Value = { List Row };

    ghost view = { λ t. all_rows t.buffer.items t.runs.items };

    ghost invariant = { λ t. Holds t.buffer.items t.runs.items t.bound };
}

impl<const K: usize, const C: usize> Pile<K, C> {
    /// No rows.
    pub fn new(alloc: Global) -> Pile<K, C>
        ensures { (q : List ℕ) (i : ℕ) → total_at result q i ≡ 0 }
    {
        Pile {
            buffer: Vec::new(alloc),
            runs: Vec::new(alloc),
            bound: 0,
        }
    }

    /// The rows of a run.
    pub fn of_run(
        alloc: Global,
        run: Vec<Piece<K, C>>,
        bound: u64,
    ) -> Result<Pile<K, C>, AllocError>
        requires run { IsRun run.items }
        requires within { (q : List ℕ) (i : ℕ) → total_at run.items q i ≤ bound }
        ensures { IfOk result (λ pile. (q : List ℕ) (i : ℕ)
            → total_at pile q i ≡ total_at run.entry.items q i) }
    {
        let mut runs = Vec::new(alloc);
        push_run(&mut runs, run)?;
        Ok(Pile {
            buffer: Vec::new(alloc),
            runs,
            bound,
        })
    }

    /// At least each number.
    pub fn bound(&self) -> u64
        ensures { (q : List ℕ) (i : ℕ) → total_at self.now q i ≤ result }
    {
        self.bound
    }

    /// Lets a row wait, unless the bound would reach 2^64.
    pub fn wait(
        &mut self,
        alloc: Global,
        piece: &Piece<K, C>,
        most: u64,
    ) -> Result<bool, AllocError>
        requires most { (i : ℕ) → slice_index_or piece.now.numbers i 0 ≤ most }
        requires piece { 0 < slice_index_or piece.now.numbers 0 0 }
        ensures total { IfOk result (λ waits. (q : List ℕ) (i : ℕ) → total_at self.new q i
            ≡ total_at self.old q i + (if waits then part q i piece.now else 0)) }
        ensures err { OnErr result ((q : List ℕ) (i : ℕ)
            → total_at self.new q i ≡ total_at self.old q i) }
        ensures small { Small (total_at self.new) }
    {
        let Some(bound) = self.bound.checked_add(most) else {
            return Ok(false);
        };
        put(alloc, &mut self.buffer, &mut self.runs, piece)?;
        self.bound = bound;
        Ok(true)
    }

    /// The totals of a row's key.
    pub fn held(&mut self, alloc: Global, wanted: &Piece<K, C>) -> Result<Piece<K, C>, AllocError>
        ensures total { (q : List ℕ) (i : ℕ) → total_at self.new q i ≡ total_at self.old q i }
        ensures held { IfOk result (λ sums. (i : ℕ)
            → slice_index_or sums.numbers i 0 ≡ total_at self.old wanted.now.key i) }
    {
        flush(alloc, &mut self.buffer, &mut self.runs)?;
        Ok(held(&self.runs, wanted))
    }

    /// Lays great rows apart, and takes the bound from those that are left.
    pub fn shed(
        &mut self,
        alloc: Global,
        apart: &mut Vec<Vec<Piece<K, C>>>,
    ) -> Result<(), AllocError>
        requires small { Small (held_total self.old apart.old.items) }
        requires runs { AreRuns apart.old.items }
        ensures total { (q : List ℕ) (i : ℕ) → held_total self.new apart.new.items q i
            ≡ held_total self.old apart.old.items q i }
        ensures runs { AreRuns apart.new.items }
    {
        flush(alloc, &mut self.buffer, &mut self.runs)?;
        let shed = shed_runs(alloc, &mut self.runs, apart);
        self.bound = bound_of(&self.runs);
        shed
    }

    /// All rows as one run.
    pub fn into_rows(self, alloc: Global) -> Result<Vec<Piece<K, C>>, AllocError>
        ensures total { IfOk result (λ rows. (q : List ℕ) (i : ℕ)
            → total_at rows.items q i ≡ total_at self.entry q i) }
        ensures run { IfOk result (λ rows. IsRun rows.items) }
    {
        let Pile {
            buffer,
            runs,
            bound: _,
        } = self;
        into_rows(alloc, buffer, runs)
    }
}
