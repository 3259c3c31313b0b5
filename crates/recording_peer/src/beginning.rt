//! The datagram that a peer's session begins with.

ghost use Rattle.std.specs.Prelude.{◌≡◌, ◌≢◌, ℕ, List, [], Ok, IfOk, MatchBool};
ghost use Rattle.std.specs.BTreeMap.{values};
ghost use Rattle.ipfix_message.specs.Domains.{Message, message_header};
ghost use Rattle.ipfix_message.specs.declared.fault.MessageFault.TheVariants.{OutOfMemory};
ghost use Rattle.ipfix_datagrams.specs.Datagrams.{Fits, IsReadingOf};
ghost use Rattle.recording_peer.specs.Beginnings.{BeginsAs, first_basis, resumed_first};
ghost use Rattle.recording_peer.specs.declared.beginning.Beginning.TheVariants.{BeginsNone};

use ipfix_datagrams::{DatagramReading, KnownTemplates, Reading, read_datagram};
use ipfix_message::{Domains, MessageFault, Templates, header_of};
use ipfix_wire::Header;
use recording_resumption::{EarlierDomains, resumed};
use std::alloc::{AllocError, Global};
use std::collections::BTreeMap;

/// What a datagram does of a peer of which nothing is kept.
#[derive(Clone, Copy)]
pub enum Beginning {
    /// It begins the peer's session: it is taken ([`PeerRecorder::take`](crate::PeerRecorder::take)), and leaves a template in force.
    Begins,
    /// It would be taken, and leaves none. So what an earlier run left goes on without it, as in a session
    /// ([`go_on`](recording_resumption::go_on)).
    PassesBy(Header),
    /// It would be refused or ignored.
    BeginsNone,
}

// What a datagram does, whose header was read, and that was read so, where these were resumed before it.
fn beginning_of(resumed: &Templates, header: &Header, reading: &DatagramReading) -> Beginning
    ensures { (budget : ℕ) (ws : List (ℕ × ℕ)) (m : List ℕ) (x : Message)
        → message_header m ≡ Ok header.now
        → IsReadingOf (first_basis (values resumed.now)) [] m reading.now x
        → Fits budget ws x.domains → BeginsAs budget (values resumed.now) m result }
{
    if resumed.is_empty() {
        if reading.defines() {
            Beginning::Begins
        } else {
            Beginning::PassesBy(*header)
        }
    } else {
        Beginning::Begins
    }
}

// Whether memory ran out.
fn is_memory(fault: &MessageFault) -> bool
    ensures { MatchBool result (fault.now ≡ OutOfMemory) (fault.now ≢ OutOfMemory) }
{
    match fault {
        MessageFault::OutOfMemory => true,
        _ => false,
    }
}

// A datagram with a fault begins no session. Where memory ran out that isn't known.
fn begins_none(fault: &MessageFault) -> Result<Beginning, AllocError>
    ensures { IfOk result (λ begins. (begins ≡ BeginsNone) × (fault.now ≢ OutOfMemory)) }
{
    if is_memory(fault) {
        Err(AllocError)
    } else {
        Ok(Beginning::BeginsNone)
    }
}

// What a datagram does, whose header was read, with these templates resumed before it.
fn begins_with(
    alloc: Global,
    budget: u64,
    resumed: &Templates,
    header: &Header,
    datagram: &[u8],
) -> Result<Beginning, AllocError>
    requires { message_header datagram.now ≡ Ok header.now }
    ensures { IfOk result (BeginsAs budget (values resumed.now) datagram.now) }
{
    let domains = Domains::new(alloc);
    let known = KnownTemplates::new(alloc, budget, 0);
    match read_datagram(alloc, &domains, &known, resumed, &[], header, datagram) {
        Ok(Reading::Kept(reading)) => Ok(beginning_of(resumed, header, &reading)),
        Ok(Reading::TooMuch(_)) => Ok(Beginning::BeginsNone),
        Ok(Reading::Ignored(_)) => Ok(Beginning::BeginsNone),
        Err(fault) => begins_none(&fault),
    }
}

/// What a datagram does of a peer of which nothing is kept, and of which an earlier run left this, with a budget for its
/// templates. It leaves a template in force if it defines one, or resumes one that the earlier run left. Without memory to
/// read it there is no answer.
pub fn begins_peer(
    alloc: Global,
    budget: u64,
    earlier: &EarlierDomains,
    datagram: &[u8],
) -> Result<Beginning, AllocError>
    ensures { IfOk result
        (BeginsAs budget (resumed_first earlier.now datagram.now) datagram.now) }
{
    let header = match header_of(datagram) {
        Ok(header) => header,
        Err(fault) => return begins_none(&fault),
    };
    match resumed(earlier, &header) {
        Some(domain) => begins_with(alloc, budget, &domain.templates, &header, datagram),
        None => {
            let none = BTreeMap::new(alloc);
            begins_with(alloc, budget, &none, &header, datagram)
        }
    }
}
