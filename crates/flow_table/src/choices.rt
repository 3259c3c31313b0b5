//! What a plan may choose.

/// Which elements say when a flow starts and ends.
#[derive(Clone, Copy, Debug, PartialEq, Eq)]
pub enum Times {
    /// Milliseconds, or else seconds: flowStartMilliseconds (152) and flowStartSeconds (150),
    /// flowEndMilliseconds (153) and flowEndSeconds (151).
    Basic,
    /// These, or else microseconds (154, 155), nanoseconds (156, 157), microseconds before the export time
    /// (158, 159), milliseconds from when the exporter was started (22 and 21, over 160), or the flow's other
    /// time and its duration (161, 162).
    All,
}

/// What becomes of octetTotalCount (85) and packetTotalCount (86), which count from when metering began
/// (RFC 7012, section 3.2.4).
#[derive(Clone, Copy, Debug, PartialEq, Eq)]
pub enum Totals {
    /// They are no counters.
    Refused,
    /// They may be counters, and are added up as delta counters are: right where each record of an exporter
    /// says all of a flow, and wrong where a flow has several records.
    AsDeltas,
}

/// What a plan may choose, and need not.
#[derive(Clone, Copy, Debug, PartialEq, Eq)]
pub struct Choices {
    pub times: Times,
    pub totals: Totals,
}

impl Choices {
    /// What holds of a plan that chooses nothing.
    pub const BASIC: Choices = Choices {
        times: Times::Basic,
        totals: Totals::Refused,
    };
}
