//! What is known of an earlier run's session by the file that was read.

use crate::last_message::LastMessage;
use indexmap::IndexMap;
use ipfix_session::FullReport;

/// What a file of an earlier run has, read by itself as a session.
#[derive(Drop)]
pub struct EarlierSession {
    /// The report of its messages up to the first that has a fault. Where none has, its domains have the templates
    /// that are in force at the end.
    pub full: FullReport,
    /// The last of these messages in each domain.
    pub last: IndexMap<u32, LastMessage>,
}
