//! Rows by key: a pile of rows, and runs of rows with a very great number that lie apart.

ghost use Rattle.std.specs.Prelude.{◌≡◌, ℕ, ◌+◌, ◌*◌, ◌^◌, ◌<◌, ◌≤◌, List, IfOk, IsErrOf, OnOk, OnErr, slice_index_or};
ghost use Rattle.flow_rows.specs.Rows.{IsRun, Small, SomeTooLarge, part, total_at};
ghost use Rattle.flow_rows.specs.declared.table.AddError.TheVariants.{SumTooLarge};

use crate::adding::add_row;
use crate::bounds::merged_bound;
use crate::merging::{merge_all, merge_two};
use crate::piece::Piece;
use crate::pile::Pile;
use std::alloc::{AllocError, Global};
use std::marker::Model;

/// Why a row is not added.
#[derive(Clone, Copy, Debug)]
pub enum AddError {
    /// A sum would reach 2^64.
    SumTooLarge,
    OutOfMemory,
}

// The fault of a key of which a sum is too large, whose words are left in `key`.
fn too_large(words: &[u64], key: &mut Vec<u64>) -> AddError
    ensures { result ≡ SumTooLarge → key.new.items ≡ words.now }
{
    key.clear();
    match key.extend_from_slice(words) {
        Ok(()) => AddError::SumTooLarge,
        Err(_) => AddError::OutOfMemory,
    }
}

/// Rows by key: what is added to one key is added up.
#[derive(Drop)]
pub struct FlatRows<const K: usize, const C: usize> {
    alloc: Global,
    pile: Pile<K, C>,
    apart: Vec<Vec<Piece<K, C>>>,
}

impl<const K: usize, const C: usize> Model for FlatRows<K, C> {
    ghost use Rattle.std.specs.Prelude.{List};
    ghost use Rattle.flow_rows.specs.Rows.{Row};
    ghost use Rattle.flow_rows.specs.Stacks.{HoldsApart, all_rows};

    ghost Value = { List Row };

    ghost view = { λ t. all_rows t.pile t.apart.items };

    ghost invariant = { λ t. HoldsApart t.pile t.apart.items };
}

impl<const K: usize, const C: usize> FlatRows<K, C> {
    /// No rows.
    pub fn new(alloc: Global) -> FlatRows<K, C>
        ensures { (q : List ℕ) (i : ℕ) → total_at result q i ≡ 0 }
    {
        FlatRows {
            alloc,
            pile: Pile::new(alloc),
            apart: Vec::new(alloc),
        }
    }

    /// Adds a row. After an `Err` the totals are what they were.
    pub fn add(&mut self, piece: &Piece<K, C>) -> Result<(), AddError>
        requires { 0 < slice_index_or piece.now.numbers 0 0 }
        ensures total { OnOk result ((q : List ℕ) (i : ℕ)
            → total_at self.new q i ≡ total_at self.old q i + part q i piece.now) }
        ensures small { Small (total_at self.new) }
        ensures err { OnErr result ((q : List ℕ) (i : ℕ)
            → total_at self.new q i ≡ total_at self.old q i) }
        ensures too_large { IsErrOf result SumTooLarge
            → SomeTooLarge (λ i. total_at self.old piece.now.key i
            + slice_index_or piece.now.numbers i 0) }
    {
        add_row(self.alloc, &mut self.pile, &mut self.apart, piece)
    }

    /// At least each number.
    fn bound(&self) -> u64
        ensures { (q : List ℕ) (i : ℕ) → total_at self.now q i ≤ result }
    {
        if self.apart.is_empty() {
            self.pile.bound()
        } else {
            u64::MAX
        }
    }

    /// All rows, ascending by key, each key once.
    pub fn finish(self) -> Result<Vec<Piece<K, C>>, AllocError>
        ensures total { IfOk result (λ rows. (q : List ℕ) (i : ℕ)
            → total_at rows.items q i ≡ total_at self.entry q i) }
        ensures run { IfOk result (λ rows. IsRun rows.items) }
    {
        let FlatRows { alloc, pile, apart } = self;
        let rows = pile.into_rows(alloc)?;
        let great = merge_all(alloc, apart)?;
        merge_two(rows, great)
    }

    /// The rows of both tables. After `SumTooLarge` a sum of the key whose words are left in `key` would reach 2^64.
    pub fn merge(
        self,
        other: FlatRows<K, C>,
        key: &mut Vec<u64>,
    ) -> Result<FlatRows<K, C>, AddError>
        requires fits { 8 * K + 8 * C < 2 ^ 63 }
        ensures total { IfOk result (λ both. (q : List ℕ) (i : ℕ)
            → total_at both q i ≡ total_at self.entry q i + total_at other.entry q i) }
        ensures small { IfOk result (λ both. Small (total_at both)) }
        ensures too_large { IsErrOf result SumTooLarge → SomeTooLarge (λ i.
            total_at self.entry key.new.items i + total_at other.entry key.new.items i) }
    {
        let alloc = self.alloc;
        let (bound, other_bound) = (self.bound(), other.bound());
        let Ok(rows) = self.finish() else {
            return Err(AddError::OutOfMemory);
        };
        let Ok(other_rows) = other.finish() else {
            return Err(AddError::OutOfMemory);
        };
        let both_bound = match merged_bound(&rows, &other_rows, bound, other_bound) {
            Ok(both_bound) => both_bound,
            Err(large) => return Err(too_large(&large, key)),
        };
        let Ok(both) = merge_two(rows, other_rows) else {
            return Err(AddError::OutOfMemory);
        };
        let Ok(pile) = Pile::of_run(alloc, both, both_bound) else {
            return Err(AddError::OutOfMemory);
        };
        let apart = Vec::new(alloc);
        Ok(FlatRows { alloc, pile, apart })
    }
}
