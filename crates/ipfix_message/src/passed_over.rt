//! What a message says that gives no records (RFC 7011, sections 3.3.2, 8.1 and 9).

/// What was passed over, counted.
#[derive(Clone, Copy, Debug, PartialEq, Eq)]
pub struct PassedOver {
    /// Sets with an id of 0, 1 or 4 to 255 (RFC 7011, section 3.3.2).
    pub skipped_sets: u64,
    /// Data sets that had no template in force (RFC 7011, section 9).
    pub unknown_sets: u64,
    /// Withdrawals of a template that was not in force (RFC 7011, section 8.1).
    pub ignored_withdrawals: u64,
}
