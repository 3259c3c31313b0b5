//! How many peers are kept, and for how long.

use std::num::NonZeroUsize;

/// How many peers that send datagrams are kept at once, how many seconds each may be silent, how many seconds a datagram waits for
/// those before it if it is ahead of the due sequence number (RFC 7011, section 8.2), and what the templates of each may count.
#[derive(Clone, Copy, Debug, PartialEq, Eq)]
pub struct DatagramLimits {
    pub most: NonZeroUsize,
    pub idle: u64,
    /// With 0 none waits, and none is held for doubled.
    pub reorder: u64,
    /// Each template counts 8 and its field specifiers, and each domain 16.
    pub templates: u64,
}
