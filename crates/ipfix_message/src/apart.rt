//! Room between the count of an `Arc` and what its value says.

/// Octets that nobody reads, as many as a cache line has: the first field of a value that threads share. So what
/// the value says is not in the line in which its owners are counted, which the thread that lets records go would take
/// from the one that reads them, for each of them.
pub type Apart = [u64; 8];

/// The room.
pub const APART: Apart = [0; 8];
