//! What a recording tells when it has ended.

use crate::file_report::FileReport;
use crate::record_fault::RecordFault;
use ipfix_session::FullReport;

/// A recorded session: what it gave, and why it ended.
#[derive(Drop)]
pub struct RecordedSession {
    /// The report of the messages that stand whole in its files, without their domains. Where a file could
    /// not be written, its fault is `SinkClosed`.
    pub report: FullReport,
    /// The report of the file that isn't finished: of those that stand whole in it.
    pub last: FileReport,
    /// Why it ended.
    pub ended: Result<(), RecordFault>,
}
