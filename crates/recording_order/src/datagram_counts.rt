//! What the recorder says of a datagram.

/// What the recorder says of a datagram that it has written.
#[derive(Clone, Copy, Debug, PartialEq, Eq)]
pub struct DatagramCounts {
    /// Its data records. Those of an unknown set can't be counted.
    pub records: u64,
    /// Its unknown sets: data sets without a template.
    pub unknown_sets: u64,
}
