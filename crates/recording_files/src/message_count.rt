//! What a message adds to counts.

use ipfix_message::{Decoded, PassedOver};
use ipfix_wire::Header;

/// What a message adds to the counts of its session and its file.
#[derive(Clone, Copy)]
pub struct MessageCount {
    /// Its header.
    pub header: Header,
    /// Its data records.
    pub records: u64,
    /// Its sets and withdrawals that gave nothing.
    pub passed_over: PassedOver,
}
