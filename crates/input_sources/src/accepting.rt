//! Accepting connections, one after another.

ghost use Rattle.std.specs.Prelude.{◌≡◌, ◌<◌, IfErr, IfOk, IfSome, IsErr, OnErr};
ghost use Rattle.std.specs.Duration.{as_nanos};
ghost use Rattle.report_writing.specs.Lines.{StaysFailed};
ghost use Rattle.report_writing.specs.Told.{AreToldTo};
ghost use Rattle.input_sources.specs.Origins.{ArePeers};
ghost use Rattle.input_sources.specs.Had.{AreAccepted, IsReasonOf};
ghost use Rattle.input_sources.specs.InputsTold.{opened_lines, TellsPeers};

use crate::unread_sources::UnreadSources;
use crate::with_progress::WithProgress;
use ipfix_session::Source;
use report_writing::{Origin, Reason, Verbosity, WriteLines, write_opened};
use std::alloc::Global;
use std::io::Write;
use std::net::SocketAddr;
use std::rt::Clock;
use std::time::Duration;

/// A connection that was accepted.
#[derive(Drop)]
pub struct Accepted<S> {
    pub source: S,
    /// The address of its peer.
    pub peer: SocketAddr,
}

/// What gives one connection after another.
pub trait Listener<S: Source> {
    ghost use Rattle.std.specs.Prelude.{◌≡◌, List, Option, IfErr, IfOk, IfSome, IsErr, OnErr};
    ghost use Rattle.std.specs.declared.net.socket_addr.SocketAddr.{SocketAddr};
    ghost use Rattle.std.specs.declared.time.Duration.{Duration};
    ghost use Rattle.report_writing.specs.declared.reason.Reason.{Reason};
    ghost use Rattle.input_sources.specs.Had.{ComesNext, HoldBefore, IsUnread};

    /// Whether a source is a connection with this limit of a read's time, as it is before it is read.
    ghost gives: { Self → Option Duration → S → Type 0 };

    /// Whether a source is the connection of the peer with this address, as it is before it is read.
    ghost is_of: { Self → S → SocketAddr → Type 0 };

    /// Whether no connection can be had for this reason.
    ghost refuses: { Self → Reason → Type 0 };

    /// The connections that are still to come, in their order, if it shows them.
    ghost coming: { Self → Option (List S) };

    /// Whether it is closed.
    ghost is_closed: { Self → Type 0 };

    /// The next connection, of which nothing was read, and the address of its peer. A read that waits for
    /// longer than `idle` fails; with no `idle` it waits for as long as it takes. Why there is none, if there
    /// is no connection, or if it can't have that limit, or if the listener is closed.
    fn next_source(&mut self, idle: Option<Duration>) -> Result<Accepted<S>, Reason>
        ensures given { IfOk result (λ accepted. gives self.old idle accepted.source) }
        ensures peer { IfOk result (λ accepted. is_of self.old accepted.source accepted.peer) }
        ensures refused { IfErr result (refuses self.old) }
        ensures unread { IfOk result (λ accepted. IsUnread S.seen accepted.source) }
        // It is the next one that was to come.
        ensures came { IfOk result
            (λ had. ComesNext (coming self.old) (coming self.new) had.source) }
        ensures none_came { OnErr result (coming self.new ≡ coming self.old) }
        ensures no_time { IfSome idle (λ limit. as_nanos limit ≡ 0 → IsErr result) }
        ensures closed { is_closed self.old → IsErr result }
        // No other connection has a limit than before.
        ensures same { HoldBefore (gives self.old) (gives self.new) }
        // Nor another peer, nor is there none for another reason.
        ensures same_peer { HoldBefore (is_of self.old) (is_of self.new) }
        ensures same_reason { (reason : Reason) → refuses self.new reason → refuses self.old reason };

    /// Closes it. A peer that comes later is refused.
    fn close(&mut self)
        ensures closed { is_closed self.new }
        ensures none_came { coming self.new ≡ coming self.old };
}

/// Connections that were accepted, and the origins of their sessions.
#[derive(Drop)]
pub struct AcceptedAll<S: Source + Drop> {
    pub sources: UnreadSources<S>,
    pub origins: Vec<Origin<'static>>,
}

/// So many connections as sources, each with this limit of a read's time. After the last, and if one can't
/// be accepted, the listener is closed. `err` has a line for each that was accepted, if `verbosity` is verbose;
/// a fault of `err` is passed over.
pub fn accept_all<
    'r,
    S: Source + Drop,
    L: Listener<S>,
    P: Write + Copy + Drop,
    E: WriteLines,
    R: Clock,
>(
    rt: &'r R,
    alloc: Global,
    listener: &mut L,
    count: usize,
    idle: Option<Duration>,
    progress: Option<P>,
    verbosity: Verbosity,
    err: &mut E,
) -> Result<AcceptedAll<WithProgress<'r, S, R, P>>, Reason>
    // So many came, each was accepted, and nothing else.
    ensures accepted { IfOk result (λ all. AreAccepted (L.gives listener.old idle) count
        (L.coming listener.old) (L.coming listener.new) all.sources) }
    // None of them is read by then.
    ensures closed { L.is_closed listener.new }
    ensures no_time { IfSome idle (λ limit. as_nanos limit ≡ 0 → 0 < count → IsErr result) }
    // The peer that is told of each is its own.
    ensures peers { IfOk result
        (λ all. ArePeers (L.is_of listener.old) all.sources all.origins.items) }
    ensures told { IfOk result (λ all. AreToldTo E.lines err.old err.new
        (opened_lines verbosity all.origins.items)) }
    ensures stopped { OnErr result (TellsPeers (L.is_of listener.old) verbosity
        (AreToldTo E.lines err.old err.new)) }
    ensures reason { IfErr result (IsReasonOf (L.refuses listener.old)) }
    ensures kept { StaysFailed E.lines err.old err.new }
{
    let accepted = accept_each(rt, alloc, listener, count, idle, progress, verbosity, err);
    listener.close();
    accepted
}

// Accepts one connection after another.
fn accept_each<
    'r,
    S: Source + Drop,
    L: Listener<S>,
    P: Write + Copy + Drop,
    E: WriteLines,
    R: Clock,
>(
    rt: &'r R,
    alloc: Global,
    listener: &mut L,
    count: usize,
    idle: Option<Duration>,
    progress: Option<P>,
    verbosity: Verbosity,
    err: &mut E,
) -> Result<AcceptedAll<WithProgress<'r, S, R, P>>, Reason>
    ensures accepted { IfOk result (λ all. AreAccepted (L.gives listener.old idle) count
        (L.coming listener.old) (L.coming listener.new) all.sources) }
    ensures no_time { IfSome idle (λ limit. as_nanos limit ≡ 0 → 0 < count → IsErr result) }
    ensures peers { IfOk result
        (λ all. ArePeers (L.is_of listener.old) all.sources all.origins.items) }
    ensures told { IfOk result (λ all. AreToldTo E.lines err.old err.new
        (opened_lines verbosity all.origins.items)) }
    ensures stopped { OnErr result (TellsPeers (L.is_of listener.old) verbosity
        (AreToldTo E.lines err.old err.new)) }
    ensures reason { IfErr result (IsReasonOf (L.refuses listener.old)) }
    ensures kept { StaysFailed E.lines err.old err.new }
{
    let mut sources = UnreadSources::new(alloc);
    let mut origins = Vec::new(alloc);
    for number in 0..count {
        let Accepted { source, peer } = listener.next_source(idle)?;
        let origin = Origin::Peer(peer);
        let watched = WithProgress::new(alloc, rt, number + 1, source, None, progress);
        let Ok(()) = sources.push(watched) else {
            return Err(Reason::OutOfMemory);
        };
        let Ok(()) = origins.push(origin) else {
            return Err(Reason::OutOfMemory);
        };
        let _ = write_opened(verbosity, number + 1, &origin, err);
    }
    Ok(AcceptedAll { sources, origins })
}
