//! What is done with all peers now and then: refused datagrams are told, files are finished, silent peers end.

ghost use Rattle.std.specs.Prelude.{◌≡◌, ◌⊎◌, [], None, IfSome};
ghost use Rattle.report_writing.specs.Writing.{Tells};
ghost use Rattle.recording_peers.specs.Steps.{KeepsLimits, LastIsHeard};
ghost use Rattle.recording_datagrams.specs.Ending.{TellsSome};
ghost use Rattle.recording_datagrams.specs.Turns.{EndsSilent, EndedLines, HadTurns, EndsOneSilent, IsTurn, IsTurnTold, none_unserved, not_received_lines, turned_away_lines, unserved_lines};

use crate::ending::{EndCause, end_peer, tell_orders, tell_refusals, tell_resumed};
use recording_connections::{RecordingFiles, RefusedPeers, SharedCounts};
use recording_lines::{write_not_received, write_turned_away};
use recording_peers::{InTurn, PeerState, Peers};
use report_writing::WriteLines;
use std::alloc::Global;
use std::io;
use std::net::SocketAddr;

/// Goes over all peers as a second begins: records their datagrams whose time to wait is over, tells which were
/// refused and which domains went on after an earlier run, and if a period is over finishes their files and tells how many were doubled and reordered. A session
/// whose datagrams can't be recorded or whose file can't be finished ends. A line that can't be written stops
/// nothing; its first error is the answer.
pub fn go_over<F: RecordingFiles + Drop, W: WriteLines>(
    alloc: Global,
    peers: &mut Peers<F>,
    second: u64,
    is_over: bool,
    out: &mut W,
) -> io::Result<()>
    ensures turns { TellsSome W.lines out.old out.new result
        (HadTurns F.seen F.finishes second is_over peers.old.kept.entries peers.new.kept.entries) }
    ensures limits { KeepsLimits peers.old peers.new }
{
    let mut told: io::Result<()> = Ok(());
    for _ in 0..peers.len() {
        told = told.and(go_on(alloc, peers, second, is_over, out));
    }
    told
}

// The turn of the peer that was silent for longest.
fn go_on<F: RecordingFiles + Drop, W: WriteLines>(
    alloc: Global,
    peers: &mut Peers<F>,
    second: u64,
    is_over: bool,
    out: &mut W,
) -> io::Result<()>
    ensures turn { (peers.old.kept.entries ≡ []) ⊎ TellsSome W.lines out.old out.new result
        (IsTurn F.seen F.finishes second is_over peers.old.kept.entries peers.new.kept.entries) }
    ensures limits { KeepsLimits peers.old peers.new }
{
    match peers.go_on(alloc, second, is_over) {
        None => Ok(()),
        Some(turn) => tell_turn(alloc, turn, out),
    }
}

// Tells the refused datagrams of a peer that has its turn, which of its domains went on after an earlier run, and
// how many datagrams were doubled and reordered, and ends its session if that ended in its turn.
fn tell_turn<F: RecordingFiles, W: WriteLines>(
    alloc: Global,
    turn: InTurn<F>,
    out: &mut W,
) -> io::Result<()>
    ensures { TellsSome W.lines out.old out.new result
        (IsTurnTold F.seen F.finishes turn) }
{
    let InTurn {
        peer,
        refused,
        orders,
        resumed,
        ended,
    } = turn;
    let told = tell_refusals(peer, refused, out);
    let went_on = tell_resumed(peer, resumed.as_slice(), out);
    let ordered = tell_orders(peer, orders.as_slice(), out);
    told.and(went_on.and(ordered.and(end_if(alloc, peer, ended, out))))
}

// Ends a session that ended with a fault in its turn.
fn end_if<F: RecordingFiles, W: WriteLines>(
    alloc: Global,
    peer: SocketAddr,
    ended: Option<PeerState<F>>,
    out: &mut W,
) -> io::Result<()>
    ensures { TellsSome W.lines out.old out.new result
        (EndedLines F.seen F.finishes peer ended) }
{
    match ended {
        None => Ok(()),
        Some(kept) => end_peer(alloc, peer, kept, None, out),
    }
}

/// Ends the sessions of peers whose last datagram came before a time in seconds: of those after the last that
/// isn't one. A line that can't be written stops nothing; its first error is the answer.
pub fn end_silent<F: RecordingFiles + Drop, W: WriteLines>(
    alloc: Global,
    peers: &mut Peers<F>,
    since: u64,
    out: &mut W,
) -> io::Result<()>
    ensures silent { TellsSome W.lines out.old out.new result
        (EndsSilent F.seen F.finishes since peers.old.kept.entries peers.new.kept.entries) }
    ensures limits { KeepsLimits peers.old peers.new }
{
    let mut told: io::Result<()> = Ok(());
    for _ in 0..peers.len() {
        match end_one(alloc, peers, since, out) {
            None => return told,
            Some(ended) => told = told.and(ended),
        }
    }
    told
}

// Ends the session of the peer that was silent for longest, if that is too long. The answer is that of its lines.
fn end_one<F: RecordingFiles + Drop, W: WriteLines>(
    alloc: Global,
    peers: &mut Peers<F>,
    since: u64,
    out: &mut W,
) -> Option<io::Result<()>>
    ensures none { result ≡ None → (peers.new ≡ peers.old) × (out.new ≡ out.old) }
    ensures heard { result ≡ None → LastIsHeard since peers.old.kept.entries }
    ensures silent { IfSome result (λ answer. TellsSome W.lines out.old out.new answer
        (EndsOneSilent F.seen F.finishes since peers.old.kept.entries peers.new.kept.entries)) }
    ensures limits { KeepsLimits peers.old peers.new }
{
    match peers.take_silent(since) {
        None => None,
        Some((peer, kept)) => Some(end_peer(alloc, peer, kept, Some(EndCause::Idle), out)),
    }
}

/// Tells how many datagrams came from peers that may not send, and how often none could be received, if that
/// was so. They are counted again then, though a line can't be written; its first error is the answer.
pub fn tell_unserved<W: WriteLines>(unserved: &mut SharedCounts, out: &mut W) -> io::Result<()>
    ensures told { Tells W.lines out.old out.new result
        (unserved_lines unserved.old) }
    ensures none_left { unserved.new ≡ none_unserved unserved.old }
{
    let told = tell_turned_away(unserved.take_refused(), out);
    told.and(tell_not_received(unserved.take_not_accepted(), out))
}

fn tell_turned_away<W: WriteLines>(refused: Option<RefusedPeers>, out: &mut W) -> io::Result<()>
    ensures { Tells W.lines out.old out.new result
        (turned_away_lines refused) }
{
    match refused {
        None => Ok(()),
        Some(RefusedPeers { count, last }) => write_turned_away(count, last, out),
    }
}

fn tell_not_received<W: WriteLines>(count: u64, out: &mut W) -> io::Result<()>
    ensures { Tells W.lines out.old out.new result
        (not_received_lines count) }
{
    if count == 0 {
        return Ok(());
    }
    write_not_received(count, out)
}
