//! One datagram: it is refused, or recorded, and what that leads to is told.

ghost use Rattle.std.specs.Prelude.{◌≡◌};
ghost use Rattle.report_writing.specs.Writing.{Tells};
ghost use Rattle.recording_datagrams.specs.Ending.{TellsSome};
ghost use Rattle.recording_datagrams.specs.Taking.{OutcomeLines, GoneLines, IsProcessed, no_memory_line, unserved_by};

use crate::ending::{EndCause, end_peer};
use ipfix_message::MessageFault;
use recording_connections::{RecordingFiles, SharedCounts};
use recording_files::RecordFault;
use recording_lines::write_peer_fault;
use recording_peers::{Became, Outcome, PeerPlace, PeerState, Peers};
use report_writing::WriteLines;
use std::alloc::Global;
use std::io;
use std::net::SocketAddr;

/// Records or refuses a datagram, and tells what went or ended at that. One that finds no place is counted, to be
/// told later.
pub(crate) fn record_and_tell<F: RecordingFiles + Drop, P: PeerPlace<F>, W: WriteLines>(
    alloc: Global,
    peers: &mut Peers<F>,
    place: &mut P,
    unserved: &mut SharedCounts,
    from: SocketAddr,
    datagram: &[u8],
    now: u64,
    out: &mut W,
) -> io::Result<()>
    ensures { TellsSome W.lines out.old out.new result
        (IsProcessed F.seen F.finishes P.made_for peers.old peers.new unserved.old unserved.new from
        datagram.now now) }
{
    let Outcome { became, gone } = peers.record(alloc, place, from, datagram, now);
    count_placeless(&became, from, unserved);
    let told = tell_gone(alloc, gone, out);
    told.and(tell_became(alloc, from, became, out))
}

// Counts a datagram that found no place.
fn count_placeless<F>(became: &Became<F>, from: SocketAddr, unserved: &mut SharedCounts)
    ensures { unserved.new ≡ unserved_by became.now unserved.old from }
{
    match became {
        Became::NoPlace => unserved.refuse(from),
        Became::Taken | Became::Ended(_) | Became::NoMemory => {}
    }
}

// Ends the session of a peer that went, since there was no room for one more.
fn tell_gone<F: RecordingFiles, W: WriteLines>(
    alloc: Global,
    gone: Option<(SocketAddr, PeerState<F>)>,
    out: &mut W,
) -> io::Result<()>
    ensures { TellsSome W.lines out.old out.new result
        (GoneLines F.seen F.finishes gone) }
{
    match gone {
        None => Ok(()),
        Some((peer, kept)) => end_peer(alloc, peer, kept, Some(EndCause::LongestSilent), out),
    }
}

// Ends a session that ended with a fault.
fn tell_became<F: RecordingFiles, W: WriteLines>(
    alloc: Global,
    peer: SocketAddr,
    became: Became<F>,
    out: &mut W,
) -> io::Result<()>
    ensures { TellsSome W.lines out.old out.new result
        (OutcomeLines F.seen F.finishes peer became) }
{
    match became {
        Became::Taken => Ok(()),
        Became::NoPlace => Ok(()),
        Became::Ended(kept) => end_peer(alloc, peer, kept, None, out),
        Became::NoMemory => tell_no_memory(peer, out),
    }
}

fn tell_no_memory<W: WriteLines>(peer: SocketAddr, out: &mut W) -> io::Result<()>
    ensures { Tells W.lines out.old out.new result
        (no_memory_line peer) }
{
    let fault = RecordFault::Message(MessageFault::OutOfMemory);
    write_peer_fault(peer, fault.number(), fault.name(), out)
}
