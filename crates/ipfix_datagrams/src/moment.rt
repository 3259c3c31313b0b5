//! When a datagram was sent, and when it was taken.

/// When a datagram was sent, and when it was taken.
#[derive(Clone, Copy, Debug, PartialEq, Eq)]
pub struct Moment {
    /// Its export time, in seconds since 1970-01-01 UTC.
    pub export_time: u32,
    /// The second at which it was taken, of a clock that doesn't go back.
    pub second: u64,
}
