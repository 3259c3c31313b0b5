//! What a session tells in its turn.

use crate::refusals::Refusals;
use recording_files::RecordFault;
use recording_order::OrderCounts;
use recording_peer::Resumption;

/// What a session tells when a second has begun.
#[derive(Drop)]
pub struct Turn {
    /// Its datagrams that were refused and are told now, if there are any.
    pub refused: Option<Refusals>,
    /// How many datagrams were doubled and reordered in each domain that had some, where a period is over.
    pub orders: Vec<OrderCounts>,
    /// The domains that went on after an earlier run and are told now.
    pub resumed: Vec<Resumption>,
    /// Whether all was recorded, and its file finished if a period is over.
    pub answer: Result<(), RecordFault>,
}
