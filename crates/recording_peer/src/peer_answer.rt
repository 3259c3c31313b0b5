//! What is answered of a datagram.

use ipfix_message::MessageFault;
use recording_files::MessageCount;

/// What was done with a datagram.
#[derive(Clone, Copy)]
pub enum PeerAnswer {
    /// It is in the peer's file, and adds this to the counts.
    Recorded(MessageCount),
    /// It was refused, and changed nothing.
    Refused(MessageFault),
    /// It was refused, since what would be known with it counts more than the budget: the ids for which it would have changed
    /// what is known have no template from now on, and nothing else has changed.
    TooMuch,
    /// It has withdrawals alone, which are ignored over UDP (RFC 7011, section 8.4): they are counted, and nothing
    /// of it is kept.
    Ignored,
}
