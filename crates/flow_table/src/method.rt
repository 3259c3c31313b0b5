//! How the counters of a flow are distributed among intervals.

/// How the counters of a flow are distributed among the intervals that it covers (RFC 7015, section
/// 5.1.1).
#[derive(Clone, Copy, Debug, PartialEq, Eq)]
pub enum Method {
    /// All to the interval in which the flow starts.
    Start,
    /// All to the interval in which it ends.
    End,
    /// All to the interval of its middle.
    Mid,
    /// The same to each covered interval, and 1 more to the earliest ones until nothing is left.
    Uniform,
    /// To each covered interval in proportion to the flow's milliseconds in it.
    Proportional,
}
