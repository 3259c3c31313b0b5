//! The order of places, intervals and keys.

ghost use Rattle.std.specs.Prelude.{◌≡◌};
ghost use Rattle.flow_table.specs.Tables.{place_cmp, place_of};

use flow_table::Row;
use std::cmp::Ordering;

/// How the places of two rows compare.
pub(crate) fn compare_places(row: &Row, other: &Row) -> Ordering
    ensures { result ≡ place_cmp (place_of row.now) (place_of other.now) }
{
    match row.interval.cmp(&other.interval) {
        Ordering::Equal => row.key.cmp(&other.key),
        order => order,
    }
}
