//! The refused datagrams of a peer.

ghost use Rattle.std.specs.Prelude.{◌≡◌};
ghost use Rattle.recording_peers.specs.Calls.{one_more_refused, untold};

use ipfix_message::MessageFault;

/// The datagrams of a peer that were refused, and aren't reported yet.
#[derive(Clone, Copy, Debug, PartialEq, Eq)]
pub struct Refusals {
    /// How many, up to `u64::MAX`.
    pub count: u64,
    /// Why the last one was refused: `TooManyFields`, if with it the peer's templates would count more than the budget.
    pub last: MessageFault,
}

/// The refused datagrams with one more.
pub(crate) fn one_more(refused: Option<Refusals>, fault: MessageFault) -> Refusals
    ensures { result ≡ one_more_refused refused fault }
{
    Refusals {
        count: count_of(refused).saturating_add(1),
        last: fault,
    }
}

fn count_of(refused: Option<Refusals>) -> u64
    ensures { result ≡ untold refused }
{
    match refused {
        Some(refused) => refused.count,
        None => 0,
    }
}
