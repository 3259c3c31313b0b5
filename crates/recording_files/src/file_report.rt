//! What is told of a file.

/// What the exporter sent in the messages of a file. Its head and preambles are not counted: they are messages that it
/// did not send. The numbers stop at `u64::MAX`.
#[derive(Clone, Copy, Debug, PartialEq, Eq)]
pub struct FileReport {
    /// Its messages.
    pub messages: u64,
    /// Their data records.
    pub records: u64,
    /// Data records that the sequence numbers of the session say were lost (RFC 7011, section 3.1), from
    /// after what came before the file to its end, in all domains.
    pub lost: u64,
    /// How often a sequence number went backward there.
    pub backward: u64,
    /// Data sets of its messages that had no template in force.
    pub unknown_sets: u64,
    /// Data records by which sequence numbers advanced there after messages that had an unknown set. They
    /// are not among `lost`.
    pub unaccounted: u64,
    /// Withdrawals of templates that were ignored, since they came over UDP (RFC 7011, section 8.4): those in
    /// its messages, and those of messages that were not kept, since the file before was finished. None is
    /// ignored over a connection.
    pub ignored_withdrawals: u64,
}

impl FileReport {
    /// The report of no messages.
    pub const EMPTY: FileReport = FileReport {
        messages: 0,
        records: 0,
        lost: 0,
        backward: 0,
        unknown_sets: 0,
        unaccounted: 0,
        ignored_withdrawals: 0,
    };
}
