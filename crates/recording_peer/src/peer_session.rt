//! What is told of a peer that has ended.

use crate::resumption::Resumption;
use ipfix_datagrams::SequenceAdvances;
use recording_files::RecordedSession;

/// A recorded session of a peer.
#[derive(Drop)]
pub struct PeerSession {
    /// The reports of its datagrams that are whole in the files, and why it ended.
    pub session: RecordedSession,
    /// By domain, how far their sequence numbers advanced beside the data records that came. Datagrams may
    /// come late, doubled or not at all, so this says what the losses of the report can't.
    pub advances: SequenceAdvances,
    /// The domains that went on after an earlier run, in the order in which they did.
    pub resumed: Vec<Resumption>,
}
