//! Laying rows with a great number apart, so that the bound of the others is low.

ghost use Rattle.std.specs.Prelude.{◌≡◌, ℕ, ◌+◌, ◌^◌, ◌<◌, ◌≤◌, List, IfOk, filter, not};
ghost use Rattle.flow_rows.specs.Rows.{IsRun, Small, total_at};
ghost use Rattle.flow_rows.specs.Split.{reaches};
ghost use Rattle.flow_rows.specs.Stacks.{AreRuns, stack_total};

use crate::piece::Piece;
use crate::stack::push_run;
use std::alloc::{AllocError, Global};

/// A number from here on, 2^45, is great: at 100 Gbit/s a flow has as many octets after 47 minutes. It only matters for speed.
pub const GREAT: u64 = 35_184_372_088_832;

fn is_great<const K: usize, const C: usize>(row: &Piece<K, C>) -> bool
    ensures { result ≡ reaches GREAT row.now }
{
    row.numbers().iter().any(|number| *number >= GREAT)
}

/// The usual rows of a run, and the great ones.
fn split<const K: usize, const C: usize>(
    alloc: Global,
    run: &[Piece<K, C>],
) -> Result<(Vec<Piece<K, C>>, Vec<Piece<K, C>>), AllocError>
    ensures usual { IfOk result (λ parts.
        parts.0.items ≡ filter (λ row. not (reaches GREAT row)) run.now) }
    ensures great { IfOk result (λ parts. parts.1.items ≡ filter (reaches GREAT) run.now) }
{
    let mut usual = Vec::new(alloc);
    let mut great = Vec::new(alloc);
    for i in 0..run.len() {
        if is_great(&run[i]) {
            great.push(run[i])?;
        } else {
            usual.push(run[i])?;
        }
    }
    Ok((usual, great))
}

/// Lays the great rows of a run apart.
fn shed_run<const K: usize, const C: usize>(
    alloc: Global,
    run: &mut Vec<Piece<K, C>>,
    apart: &mut Vec<Vec<Piece<K, C>>>,
) -> Result<(), AllocError>
    requires small { Small (λ q i. total_at run.old.items q i + stack_total apart.old.items q i) }
    requires run { IsRun run.old.items }
    requires runs { AreRuns apart.old.items }
    ensures total { (q : List ℕ) (i : ℕ)
        → total_at run.new.items q i + stack_total apart.new.items q i
        ≡ total_at run.old.items q i + stack_total apart.old.items q i }
    ensures fewer { (q : List ℕ) (i : ℕ) → total_at run.new.items q i ≤ total_at run.old.items q i }
    ensures run { IsRun run.new.items }
    ensures runs { AreRuns apart.new.items }
{
    let (usual, great) = split(alloc, run)?;
    if great.is_empty() {
        return Ok(());
    }
    push_run(apart, great)?;
    *run = usual;
    Ok(())
}

/// Lays the great rows of all runs apart.
pub fn shed_runs<const K: usize, const C: usize>(
    alloc: Global,
    runs: &mut [Vec<Piece<K, C>>],
    apart: &mut Vec<Vec<Piece<K, C>>>,
) -> Result<(), AllocError>
    requires small { Small (λ q i. stack_total runs.old q i + stack_total apart.old.items q i) }
    requires runs { AreRuns runs.old }
    requires apart { AreRuns apart.old.items }
    ensures total { (q : List ℕ) (i : ℕ) → stack_total runs.new q i + stack_total apart.new.items q i
        ≡ stack_total runs.old q i + stack_total apart.old.items q i }
    ensures fewer { (q : List ℕ) (i : ℕ) → stack_total runs.new q i ≤ stack_total runs.old q i }
    ensures runs { AreRuns runs.new }
    ensures apart { AreRuns apart.new.items }
{
    for i in 0..runs.len() {
        shed_run(alloc, &mut runs[i], apart)?;
    }
    Ok(())
}

/// The greatest number of a run, or 0.
fn greatest_of<const K: usize, const C: usize>(run: &[Piece<K, C>]) -> u64
    requires { IsRun run.now }
    ensures { (q : List ℕ) (i : ℕ) → total_at run.now q i ≤ result }
{
    let mut most: u64 = 0;
    for i in 0..run.len() {
        most = most.max(run[i].greatest());
    }
    most
}

/// A bound of the numbers of all runs.
pub fn bound_of<const K: usize, const C: usize>(runs: &[Vec<Piece<K, C>>]) -> u64
    requires small { Small (stack_total runs.now) }
    requires runs { AreRuns runs.now }
    ensures { (q : List ℕ) (i : ℕ) → stack_total runs.now q i ≤ result }
{
    let mut bound: u64 = 0;
    for i in 0..runs.len() {
        bound = bound.saturating_add(greatest_of(&runs[i]));
    }
    bound
}
