//! Looking up one key in a run.

ghost use Rattle.std.specs.Prelude.{◌≡◌, ℕ, ◌≤◌, MatchOption, length, slice_index_or};
ghost use Rattle.std.specs.List.{AllWithin};
ghost use Rattle.std.specs.List.Sorted.{IsBinarySearchResult, IsSearchInRange};
ghost use Rattle.std.specs.declared.cmp.Ordering.TheVariants.{Less};
ghost use Rattle.flow_rows.specs.Rows.{IsRun, Row, total_at, words_cmp};

use crate::piece::Piece;

/// The place of a row that has the key of another row, or else where one would stand.
pub fn search<const K: usize, const C: usize>(
    run: &[Piece<K, C>],
    wanted: &Piece<K, C>,
) -> Result<usize, usize>
    ensures within { IsSearchInRange result (length run.now) }
    ensures place { IsBinarySearchResult (λ (x : Row). words_cmp x.key wanted.now.key) run.now result }
{
    let key = wanted.key();
    run.binary_search_by_key(
        &key,
        |row: &Piece<K, C>| -> [u64; K]
            ensures { result ≡ row.now.key }
        { row.key() },
    )
}

/// The row of a run that has the key of another row.
pub fn find<const K: usize, const C: usize>(
    run: &[Piece<K, C>],
    wanted: &Piece<K, C>,
) -> Option<Piece<K, C>>
    requires { IsRun run.now }
    ensures { MatchOption result ((i : ℕ) → total_at run.now wanted.now.key i ≡ 0)
        (λ x. (i : ℕ) → total_at run.now wanted.now.key i ≡ slice_index_or x.numbers i 0) }
{
    match search(run, wanted) {
        Ok(place) => Some(run[place]),
        Err(_) => None,
    }
}
