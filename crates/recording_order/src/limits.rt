//! How much is kept of a peer.

/// How many datagrams of a domain wait at most.
pub const MOST_WAITING: usize = 32;

/// How many datagrams of a domain, that were written at the number that was due, are known as the last ones.
pub const MOST_LAST: usize = 32;

/// The octets that a peer's datagrams take at most: those that wait, and the last ones beside them.
pub const ROOM: usize = 65_536;
