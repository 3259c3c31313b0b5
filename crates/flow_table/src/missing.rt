//! How many data records lack what a plan asks of them.

ghost use Rattle.std.specs.Prelude.{◌≡◌, ◌+◌, ◌<◌, ℕ, length};
ghost use Rattle.flow_table.specs.LeftOut.{missing_in};
ghost use Rattle.flow_table.specs.Missing.{AreAdded, capped};
ghost use Rattle.flow_table.specs.Words.{nth};

use crate::left_out::LeftOut;
use crate::plan::{MAX_COUNTERS, MAX_KEYS};

/// How many data records lack what a plan asks of them, by what they lack.
#[derive(Clone, Copy, Debug, PartialEq, Eq)]
pub struct Missing {
    /// Untimed records without a start.
    pub start: u64,
    /// Untimed records with a start: they have no end.
    pub end: u64,
    /// Unkeyed records, by the place in the plan of the first key that they lack.
    pub keys: [u64; MAX_KEYS],
    /// Used records that lack a counter, by its place in the plan: it counts 0. A record that lacks
    /// several is counted at each.
    pub counters: [u64; MAX_COUNTERS],
}

impl Missing {
    /// Of no records.
    pub const NONE: Missing = Missing {
        start: 0,
        end: 0,
        keys: [0; MAX_KEYS],
        counters: [0; MAX_COUNTERS],
    };

    /// Counts a record that is left out. What would be 2^64 or more stays below it.
    pub(crate) fn note(&mut self, left_out: LeftOut)
        ensures { AreAdded self.old (missing_in left_out) self.new }
    {
        match left_out {
            LeftOut::WithoutStart => self.start = self.start.saturating_add(1),
            LeftOut::WithoutEnd => self.end = self.end.saturating_add(1),
            LeftOut::WithoutKey(place) => {
                if place < MAX_KEYS {
                    self.keys[place] = self.keys[place].saturating_add(1);
                }
            }
            LeftOut::Options | LeftOut::Backward | LeftOut::TooLong => {}
        }
    }
}

/// What the records of two lists lack. What would be 2^64 or more stays below it.
pub(crate) fn missing_together(a: &Missing, b: &Missing) -> Missing
    ensures { AreAdded a.now b.now result }
{
    Missing {
        start: a.start.saturating_add(b.start),
        end: a.end.saturating_add(b.end),
        keys: sums(&a.keys, &b.keys),
        counters: sums(&a.counters, &b.counters),
    }
}

// The sums of two lists, place by place, each at most 2^64 - 1.
fn sums<const N: usize>(a: &[u64; N], b: &[u64; N]) -> [u64; N]
    ensures long { length result ≡ length a.now }
    ensures sums { (i : ℕ) → i < length a.now → nth result i ≡ capped (nth a.now i + nth b.now i) }
{
    let mut sums = *a;
    for i in 0..N {
        sums[i] = sums[i].saturating_add(b[i]);
    }
    sums
}
