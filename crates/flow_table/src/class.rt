//! What becomes of a data record under a plan.

/// What becomes of a data record under a plan: the first of these that fits.
#[derive(Clone, Copy, Debug, PartialEq, Eq)]
pub enum Class {
    /// Its template has scope fields (RFC 7011, section 3.4.2), so that it tells of no flow.
    Options,
    /// It has no start or no end.
    Untimed,
    /// It ends before it starts.
    Backward,
    /// A key is missing, or its octets are not of the key's kind.
    Unkeyed,
    /// It would be given to more intervals than the plan's `max_spread`.
    TooLong,
    /// It contributes to the table.
    Used,
}
