//! Intervals between borders.

ghost use Rattle.std.specs.Prelude.{◌≡◌, ◌<◌, ◌^◌, ℕ, None, IfSome, length};
ghost use Rattle.flow_merge.specs.RowRecords.{AreOrdered, IsLastBefore, IsWithin, border_at};

/// The interval between borders that the time from a first to a last millisecond is within.
#[tactic(auto, using(crate::proofs::AroundBorders::only_there))]
pub fn interval_within(borders: &[u64], first: u64, last: u64) -> Option<u64>
    requires { AreOrdered borders.now }
    ensures some { IfSome result (λ k. IsWithin borders.now k first last) }
    ensures few { IfSome result (λ k. k < 2 ^ 18) }
    ensures none { result ≡ None → (k : ℕ) → IsWithin borders.now k first last → ⊥ }
{
    let index = border_before(borders, first)?;
    let next = index + 1;
    if next < borders.len() && first <= last && last < borders[next] {
        Some(index as u64)
    } else {
        None
    }
}

// The index of the last border that is not after a time.
#[tactic(auto, using(crate::proofs::AroundBorders::found, crate::proofs::AroundBorders::at_border, crate::proofs::AroundBorders::between_borders))]
fn border_before(borders: &[u64], time: u64) -> Option<usize>
    requires { AreOrdered borders.now }
    ensures some { IfSome result (IsLastBefore borders.now time) }
    ensures none { result ≡ None
        → (k : ℕ) → k < length borders.now → time < border_at borders.now k }
{
    match borders.binary_search(&time) {
        Ok(index) => Some(index),
        Err(0) => None,
        Err(index) => Some(index - 1),
    }
}
