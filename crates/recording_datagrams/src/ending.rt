//! The end of a peer's session: its last file is finished, and its lines are told.

ghost use Rattle.std.specs.Prelude.{◌≡◌};
ghost use Rattle.report_writing.specs.Writing.{Tells};
ghost use Rattle.recording_datagrams.specs.Ending.{advance_lines, cause_lines, counted_lines, domain_order_lines, resumption_line, ending_lines, Ends, IsReleasedFor, order_lines, ordered_lines, refusal_lines, rest_lines, resumed_lines, TellsSome, text_of, told_lines};

use ipfix_datagrams::{DomainAdvance, SequenceAdvances};
use recording_connections::{RecordingFiles, write_session};
use recording_folder::FilesEnd;
use recording_lines::{
    write_advance, write_order, write_peer_ended, write_refused_datagrams, write_resumed,
};
use recording_order::{OrderCounts, Window};
use recording_peer::{PeerSession, Resumption};
use recording_peers::{PeerState, Refusals, untold};
use report_writing::WriteLines;
use std::alloc::Global;
use std::io;
use std::net::SocketAddr;

/// Why a peer's session ends that has no fault.
#[derive(Clone, Copy, Debug, PartialEq, Eq)]
pub enum EndCause {
    /// There were more peers than are kept, and of those that go first this one was silent for longest.
    LongestSilent,
    /// It was silent for as long as a peer may be.
    Idle,
}

impl EndCause {
    /// The words that tell it.
    pub fn text(self) -> &'static str
        ensures { result.now ≡ text_of self }
    {
        match self {
            EndCause::LongestSilent => "longest silent",
            EndCause::Idle => "idle",
        }
    }
}

/// Ends a peer's session: records what waits of it, finishes its last file with its report, and tells which of its
/// domains went on after an earlier run, if that wasn't told, what was refused of it, how many datagrams were doubled and reordered, why it ends if it has no fault, how far its
/// sequence numbers advanced beside the records that came, what its ledger says, and its faults.
pub fn end_peer<F: RecordingFiles, W: WriteLines>(
    alloc: Global,
    peer: SocketAddr,
    kept: PeerState<F>,
    cause: Option<EndCause>,
    out: &mut W,
) -> io::Result<()>
    ensures { TellsSome W.lines out.old out.new result
        (Ends F.seen F.finishes peer kept cause) }
{
    let PeerState {
        recorder,
        files,
        heard: _,
        refused,
        resumptions_told,
        window,
    } = released(alloc, kept, cause);
    let session = recorder.into_session();
    let end = files.finish(&session.session.last);
    let went_on = untold(session.resumed.as_slice(), resumptions_told);
    let told = tell_resumed(peer, went_on, out);
    told.and(tell_end(peer, refused, &window, cause, &session, end, out))
}

/// Tells which domains of a peer went on after an earlier run.
pub(crate) fn tell_resumed<W: WriteLines>(
    peer: SocketAddr,
    resumed: &[Resumption],
    out: &mut W,
) -> io::Result<()>
    ensures { Tells W.lines out.old out.new result
        (resumed_lines peer resumed.now) }
{
    for resumption in resumed {
        tell_resumption(peer, resumption, out)?;
    }
    Ok(())
}

// Tells it of one.
fn tell_resumption<W: WriteLines>(
    peer: SocketAddr,
    resumption: &Resumption,
    out: &mut W,
) -> io::Result<()>
    ensures { Tells W.lines out.old out.new result
        (resumption_line peer resumption.now) }
{
    write_resumed(peer, resumption.domain, resumption.templates, out)
}

// The session, after what waits of it is recorded. One that ended with a fault records nothing more.
fn released<F: RecordingFiles>(
    alloc: Global,
    kept: PeerState<F>,
    cause: Option<EndCause>,
) -> PeerState<F>
    ensures { IsReleasedFor F.seen cause kept result }
{
    let mut kept = kept;
    if cause.is_some() {
        // (a fault of this is the session's, which tells it)
        let _ = kept.release(alloc);
    }
    kept
}

// Tells all of that.
fn tell_end<W: WriteLines>(
    peer: SocketAddr,
    refused: Option<Refusals>,
    window: &Window,
    cause: Option<EndCause>,
    session: &PeerSession,
    end: FilesEnd,
    out: &mut W,
) -> io::Result<()>
    ensures { Tells W.lines out.old out.new result
        (ending_lines peer refused window.now cause session.now end) }
{
    tell_refusals(peer, refused, out)?;
    tell_ordered(peer, window, cause, session, end, out)
}

// Tells how many datagrams were doubled and reordered, and the rest.
fn tell_ordered<W: WriteLines>(
    peer: SocketAddr,
    window: &Window,
    cause: Option<EndCause>,
    session: &PeerSession,
    end: FilesEnd,
    out: &mut W,
) -> io::Result<()>
    ensures { Tells W.lines out.old out.new result
        (ordered_lines peer window.now cause session.now end) }
{
    tell_counted(peer, window, out)?;
    tell_rest(peer, cause, session, end, out)
}

// Tells what was counted of each domain since its counts began.
fn tell_counted<W: WriteLines>(peer: SocketAddr, window: &Window, out: &mut W) -> io::Result<()>
    ensures { Tells W.lines out.old out.new result
        (counted_lines peer window.now) }
{
    for index in 0..window.domain_count() {
        tell_domain_order(peer, &window.counts_at(index), out)?;
    }
    Ok(())
}

/// Tells how many datagrams of a peer's domains were doubled and reordered.
pub(crate) fn tell_orders<W: WriteLines>(
    peer: SocketAddr,
    orders: &[OrderCounts],
    out: &mut W,
) -> io::Result<()>
    ensures { Tells W.lines out.old out.new result
        (order_lines peer orders.now) }
{
    for counts in orders {
        tell_domain_order(peer, counts, out)?;
    }
    Ok(())
}

// Tells it of a domain, if there were any.
fn tell_domain_order<W: WriteLines>(
    peer: SocketAddr,
    counts: &OrderCounts,
    out: &mut W,
) -> io::Result<()>
    ensures { Tells W.lines out.old out.new result
        (domain_order_lines peer counts.now) }
{
    let OrderCounts {
        domain,
        doubled,
        reordered,
    } = *counts;
    if doubled == 0 && reordered == 0 {
        return Ok(());
    }
    write_order(peer, domain, doubled, reordered, out)
}

// Tells why it ended, and the rest.
fn tell_rest<W: WriteLines>(
    peer: SocketAddr,
    cause: Option<EndCause>,
    session: &PeerSession,
    end: FilesEnd,
    out: &mut W,
) -> io::Result<()>
    ensures { Tells W.lines out.old out.new result
        (rest_lines peer cause session.now end) }
{
    tell_cause(peer, cause, out)?;
    tell_counts(peer, session, end, out)
}

// Tells what its sequence numbers say, and its faults.
fn tell_counts<W: WriteLines>(
    peer: SocketAddr,
    session: &PeerSession,
    end: FilesEnd,
    out: &mut W,
) -> io::Result<()>
    ensures { Tells W.lines out.old out.new result
        (told_lines peer session.now end) }
{
    tell_advances(peer, &session.advances, out)?;
    write_session(peer, &session.session, end, out)
}

// Tells how far the sequence number of each domain advanced, and how many records came.
fn tell_advances<W: WriteLines>(
    peer: SocketAddr,
    advances: &SequenceAdvances,
    out: &mut W,
) -> io::Result<()>
    ensures { Tells W.lines out.old out.new result
        (advance_lines peer advances.now) }
{
    for index in 0..advances.len() {
        let DomainAdvance {
            domain,
            advance,
            came,
        } = advances.at(index);
        write_advance(peer, domain, advance, came, out)?;
    }
    Ok(())
}

/// Tells how many datagrams of a peer were refused that aren't reported yet, if there are any.
pub fn tell_refusals<W: WriteLines>(
    peer: SocketAddr,
    refused: Option<Refusals>,
    out: &mut W,
) -> io::Result<()>
    ensures { Tells W.lines out.old out.new result
        (refusal_lines peer refused) }
{
    match refused {
        None => Ok(()),
        Some(Refusals { count, last }) => {
            write_refused_datagrams(peer, count, last.number(), last.name(), out)
        }
    }
}

fn tell_cause<W: WriteLines>(
    peer: SocketAddr,
    cause: Option<EndCause>,
    out: &mut W,
) -> io::Result<()>
    ensures { Tells W.lines out.old out.new result
        (cause_lines peer cause) }
{
    match cause {
        None => Ok(()),
        Some(cause) => write_peer_ended(peer, cause.text(), out),
    }
}
