//! What runs hold of one key.

ghost use Rattle.std.specs.Prelude.{◌≡◌, ℕ, ◌+◌, ◌^◌, ◌<◌, slice_index_or};
ghost use Rattle.flow_rows.specs.Rows.{IsRun, total_at};
ghost use Rattle.flow_rows.specs.Stacks.{AreRuns, stack_total};

use crate::lookup::find;
use crate::piece::Piece;

/// Adds what a run holds of a key.
fn add_found<const K: usize, const C: usize>(
    sums: &mut Piece<K, C>,
    run: &[Piece<K, C>],
    wanted: &Piece<K, C>,
)
    requires run { IsRun run.now }
    requires small { (i : ℕ)
        → slice_index_or sums.old.numbers i 0 + total_at run.now wanted.now.key i < 2 ^ 64 }
    ensures { (i : ℕ) → slice_index_or sums.new.numbers i 0
        ≡ slice_index_or sums.old.numbers i 0 + total_at run.now wanted.now.key i }
{
    if let Some(row) = find(run, wanted) {
        sums.add(&row);
    }
}

/// The totals of a row's key over all runs.
pub fn held<const K: usize, const C: usize>(
    runs: &[Vec<Piece<K, C>>],
    wanted: &Piece<K, C>,
) -> Piece<K, C>
    requires runs { AreRuns runs.now }
    requires small { (i : ℕ) → stack_total runs.now wanted.now.key i < 2 ^ 64 }
    ensures { (i : ℕ)
        → slice_index_or result.numbers i 0 ≡ stack_total runs.now wanted.now.key i }
{
    let mut sums = Piece::new(wanted.key(), [0; C]);
    for i in 0..runs.len() {
        add_found(&mut sums, &runs[i], wanted);
    }
    sums
}
