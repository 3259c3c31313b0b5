//! Local intervals.

/// Intervals of a local calendar.
#[derive(Clone, Copy, Debug, PartialEq, Eq)]
pub enum LocalInterval {
    /// From a midnight to the next.
    Day,
    /// From the midnight that begins the first day of a month to that of the next month.
    Month,
}
