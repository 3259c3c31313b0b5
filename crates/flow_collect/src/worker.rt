//! A worker's thread: it takes from its links by turns, and adds what it takes.

ghost use Rattle.std.specs.Prelude.{◌≡◌};
ghost use Rattle.flow_link.specs.Parcels.{has_last};

use flow_link::Receiver;
use flow_table::Partial;

mod rounds;

pub use rounds::run_worker;

/// The worker's end of a session's link.
#[derive(Drop)]
pub struct LinkEnd {
    /// The session's number.
    pub session: usize,
    pub receiver: Receiver,
    /// Whether Last was taken.
    pub last: bool,
    pub ghost marked: { has_last receiver.received ≡ last },
}

/// What a worker's thread is given, and what it hands back once each of its links gave Last.
#[derive(Drop)]
pub struct WorkerShare {
    /// The worker's number, counted from 0.
    pub worker: usize,
    pub link_ends: Vec<LinkEnd>,
    pub partial: Partial,
}
