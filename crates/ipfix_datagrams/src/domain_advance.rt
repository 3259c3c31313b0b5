//! What is told of an observation domain.

/// How far the sequence number of a domain advanced, and how many data records came. Both stop at
/// `u64::MAX`.
#[derive(Clone, Copy, Debug, PartialEq, Eq)]
pub struct DomainAdvance {
    /// The domain.
    pub domain: u32,
    /// From the sequence number of the first message that came to just after the furthest one.
    pub advance: u64,
    /// The data records of the messages that came. Those of a set that had no template can't be counted.
    pub came: u64,
}
