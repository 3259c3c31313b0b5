//! When the interval of a row begins and ends.

ghost use Rattle.std.specs.Prelude.{◌≡◌, ◌*◌, ◌<◌, ◌^◌, slice_index_or};
ghost use Rattle.flow_table.specs.Plans.{IsPlan};
ghost use Rattle.flow_export.specs.Intervals.{first_in, last_in};

use flow_table::Plan;

/// When the intervals of a table's rows begin and end.
#[derive(Clone, Copy)]
pub enum Intervals<'a> {
    /// Interval k of the plan begins at k times its length, and is as long.
    OfPlan,
    /// Interval k begins at border k, in milliseconds since 1970-01-01 UTC, and ends before the next one.
    Between(&'a [u64]),
}

impl Intervals<'_> {
    /// The first millisecond of an interval.
    pub fn first(&self, plan: &Plan, interval: u64) -> u64
        requires { interval * plan.now.length < 2 ^ 50 }
        ensures value { result ≡ first_in self.now plan.now interval }
        ensures sound { IsPlan plan.now }
    {
        let length = u64::from(plan.length());
        match self {
            Intervals::OfPlan => interval * length,
            Intervals::Between(borders) => border(borders, interval),
        }
    }

    /// The last millisecond of an interval.
    pub fn last(&self, plan: &Plan, interval: u64) -> u64
        requires { interval * plan.now.length < 2 ^ 50 }
        ensures value { result ≡ last_in self.now plan.now interval }
        ensures sound { IsPlan plan.now }
    {
        let length = u64::from(plan.length());
        match self {
            Intervals::OfPlan => interval * length + length - 1,
            Intervals::Between(borders) => {
                border(borders, interval.saturating_add(1)).saturating_sub(1)
            }
        }
    }
}

// The border of a number; 0 after the last one.
fn border(borders: &[u64], number: u64) -> u64
    ensures { result ≡ slice_index_or borders.now number 0 }
{
    borders.get(number as usize).copied().unwrap_or(0)
}
