//! Runs on a stack.

ghost use Rattle.std.specs.Prelude.{◌≡◌, ◌+◌, ℕ, List, OnOk, OnErr};
ghost use Rattle.flow_rows.specs.Rows.{IsRun, Small, total_at};
ghost use Rattle.flow_rows.specs.Stacks.{AreRuns, stack_total};

use crate::merging::merge_into;
use crate::piece::Piece;
use std::alloc::AllocError;

/// Puts a run on top, merged with those below it that aren't more than twice as long. Where there is no
/// memory to merge two runs they stay apart.
pub fn push_run<const K: usize, const C: usize>(
    runs: &mut Vec<Vec<Piece<K, C>>>,
    run: Vec<Piece<K, C>>,
) -> Result<(), AllocError>
    requires small { Small (λ q i. stack_total runs.old.items q i + total_at run.items q i) }
    requires runs { AreRuns runs.old.items }
    requires run { IsRun run.items }
    ensures total { OnOk result ((q : List ℕ) (i : ℕ) → stack_total runs.new.items q i
        ≡ stack_total runs.old.items q i + total_at run.entry.items q i) }
    ensures err { OnErr result (runs.new.items ≡ runs.old.items) }
    ensures runs { AreRuns runs.new.items }
{
    runs.reserve(1)?;
    let mut run = run;
    while let Some(top) = runs.pop() {
        if top.len() / 2 > run.len() {
            runs.push(top)?;
            break;
        }
        let mut both = top;
        match merge_into(&mut both, &run) {
            Ok(()) => run = both,
            Err(_) => {
                runs.push(both)?;
                break;
            }
        }
    }
    runs.push(run)?;
    Ok(())
}
