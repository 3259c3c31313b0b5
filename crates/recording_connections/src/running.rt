//! Threads that record one session after another. One of them at a time accepts connections: it then records the session, and
//! another goes on accepting. There is one more than sessions, so that a peer that comes while all are at work is turned away.

ghost use Rattle.std.specs.Prelude.{◌≡◌, ◌==◌, ◌+◌, min, if◌then◌else◌, IfSome, IsSome, None};
ghost use Rattle.recording_connections.specs.Refusals.{IsNext, MaySend};
ghost use Rattle.recording_connections.specs.ConnectionLines.{TellsEnds};
ghost use Rattle.recording_connections.specs.Serving.{IsServedBy, views};

use crate::connection::{Connection, ConnectionSource};
use crate::connection_lines::write_event;
use crate::place::{RecordingFiles, SessionPlace};
use crate::recorder_run::RecordOrder;
use crate::serving::record_connection;
use crate::session_room::SessionRoom;
use crate::shared_counts::{SessionNumber, SharedCounts};
use crate::unserved::write_unserved;
use ipfix_session::Source;
use recording_files::PeriodClock;
use recording_lines::{WholeLines, write_threads};
use report_writing::{Status, WriteLines};
use std::alloc::Global;
use std::io::{self, Write};
use std::net::SocketAddr;
use std::rt::Clock;
use std::sync::{Mutex, Wait};
use std::thread::{self, Scope, Threads};
use std::time::Duration;

/// How many milliseconds a thread waits if no connection could be accepted.
const PAUSE: u64 = 100;

/// How many seconds it takes until peers that have no session are told.
const BETWEEN_LINES: u64 = 1;

/// What records connections.
#[derive(Drop)]
pub struct ConnectionRecorder<'a, L, P> {
    pub alloc: Global,
    /// Where connections come from.
    pub listener: L,
    /// Where their sessions are recorded.
    pub place: P,
    /// Which peers may send, how many sessions are recorded at once, each in a thread, and what is told.
    pub order: &'a RecordOrder,
    /// What the threads share.
    pub shared: &'a Mutex<SharedCounts>,
}

// What the threads that accept connections share, for a run.
#[derive(Drop)]
struct Entrance {
    // Whose turn it is to accept.
    turn: Mutex<()>,
    room: Mutex<SessionRoom>,
}

/// Records what comes over connections in threads, each of which accepts one after another. Sessions are numbered by
/// the shared counts. While all sessions are at work, and where no connection can be accepted, that is written. It ends only
/// if no thread can be started.
pub fn record_connections<
    S: Source + Send + Drop,
    F: RecordingFiles + Send,
    C: PeriodClock + Send + Drop,
    L: ConnectionSource<S> + Sync,
    P: SessionPlace<F, C> + Sync,
    E: Write + Copy + Send + Drop,
    R: Clock + Threads + Wait + Sync,
>(rt: &R, recorder: &ConnectionRecorder<L, P>, err: E) -> Status
    ensures { result ≡ Status.Failed }
{
    let entrance = Entrance {
        turn: Mutex::new(()),
        room: Mutex::new(SessionRoom::new(recorder.order.sessions)),
    };
    thread::scope(
        thread::scope_env(),
        rt,
        |scope| -> Status
            ensures { result ≡ Status.Failed }
        { run_all(scope, rt, recorder, &entrance, err) },
    )
}

// As many threads as sessions, and one more, if there is room for any.
fn threads_of(sessions: usize) -> usize
    ensures { result ≡ (if sessions == 0 then 0 else min (sessions + 1) 18446744073709551615) }
{
    match sessions {
        0 => 0,
        _ => sessions.saturating_add(1),
    }
}

// Starts the threads, and then writes which peers have no session.
fn run_all<
    's,
    'e,
    S: Source + Send + Drop + 's,
    F: RecordingFiles + Send + 's,
    C: PeriodClock + Send + Drop + 's,
    L: ConnectionSource<S> + Sync,
    P: SessionPlace<F, C> + Sync,
    E: Write + Copy + Send + Drop + 's,
    R: Clock + Threads + Wait + Sync,
>(
    scope: &'s Scope<'s, &'e ()>,
    rt: &'s R,
    recorder: &'s ConnectionRecorder<'s, L, P>,
    entrance: &'s Entrance,
    err: E,
) -> Status
    ensures { result ≡ Status.Failed }
{
    let mut out = WholeLines::new(err);
    let threads = threads_of(recorder.order.sessions);
    let mut started: usize = 0;
    for _ in 0..threads {
        let run = move || accept_forever(rt, recorder, entrance, err);
        if scope.spawn(run).is_ok() {
            started = started.saturating_add(1);
        }
    }
    if started < threads {
        let _ = write_threads(started, threads, &mut out);
    }
    if started > 0 {
        tell_forever(rt, recorder.shared, &entrance.room, &mut out);
    }
    Status::Failed
}

// Accepts a connection, records its session, and goes on with the next one.
fn accept_forever<
    S: Source + Drop,
    F: RecordingFiles,
    C: PeriodClock + Drop,
    L: ConnectionSource<S>,
    P: SessionPlace<F, C>,
    E: Write + Copy + Drop,
    R: Clock + Wait,
>(rt: &R, recorder: &ConnectionRecorder<L, P>, entrance: &Entrance, err: E) {
    let mut out = WholeLines::new(err);
    for _ in rt.forever() {
        // At the end the connection is closed.
        if let Some(mut connection) = accept(rt, recorder, &entrance.turn) {
            let session = admit(rt, recorder, &entrance.room, connection.peer);
            let is_served = session.is_some();
            // (a line that can't be written stops nothing)
            let _ = serve(recorder, &mut connection, session, &mut out);
            if is_served {
                entrance.room.lock(rt).end();
            }
        }
    }
}

// Accepts a connection when it is this thread's turn. If none can be accepted that is counted, and it waits a moment.
fn accept<S: Source, L: ConnectionSource<S>, P, R: Clock + Wait>(
    rt: &R,
    recorder: &ConnectionRecorder<L, P>,
    turn: &Mutex<()>,
) -> Option<Connection<S>>
    ensures { IfSome result (L.gives recorder.now.listener) }
{
    let _turn = turn.lock(rt);
    match recorder.listener.next_connection() {
        Ok(connection) => Some(connection),
        // No descriptor is free, or the connection has gone.
        Err(_) => {
            recorder.shared.lock(rt).count_not_accepted();
            thread::sleep(rt, Duration::from_millis(PAUSE));
            None
        }
    }
}

// The number of a peer's session, if the peer may send and a session is free; otherwise the peer is counted.
fn admit<L, P, R: Wait>(
    rt: &R,
    recorder: &ConnectionRecorder<L, P>,
    room: &Mutex<SessionRoom>,
    peer: SocketAddr,
) -> Option<SessionNumber>
    ensures may_send { IsSome result → MaySend recorder.now.order.now.filter peer }
    ensures next { IfSome result (λ session. (counts : SharedCounts) × IsNext counts session) }
{
    let may_send = recorder.order.filter.lets_in(peer.ip());
    if may_send && !room.lock(rt).begin(peer) {
        return None;
    }
    recorder.shared.lock(rt).admit(&recorder.order.filter, peer)
}

// Records the session of a connection that has this number, with a line at its beginning and its end if more is asked for; of
// one that has none nothing is read and nothing written here.
fn serve<
    S: Source,
    F: RecordingFiles,
    C: PeriodClock + Drop,
    L,
    P: SessionPlace<F, C>,
    W: WriteLines,
>(
    recorder: &ConnectionRecorder<L, P>,
    connection: &mut Connection<S>,
    session: Option<SessionNumber>,
    out: &mut W,
) -> io::Result<()>
    ensures unread { session ≡ None → connection.new ≡ connection.old }
    ensures untold { session ≡ None → out.new ≡ out.old }
    ensures served { IfSome session (λ s. IsServedBy (views S.seen S.failure F.seen C.asked F.finishes) P.makes recorder.now
        s.number connection.old connection.new (TellsEnds W.lines out.old out.new result)) }
{
    match session {
        Some(number) => serve_session(recorder, connection, number, out),
        None => Ok(()),
    }
}

fn serve_session<
    S: Source,
    F: RecordingFiles,
    C: PeriodClock + Drop,
    L,
    P: SessionPlace<F, C>,
    W: WriteLines,
>(
    recorder: &ConnectionRecorder<L, P>,
    connection: &mut Connection<S>,
    number: SessionNumber,
    out: &mut W,
) -> io::Result<()>
    ensures { IsServedBy (views S.seen S.failure F.seen C.asked F.finishes) P.makes recorder.now number.number
        connection.old connection.new (TellsEnds W.lines out.old out.new result) }
{
    let peer = connection.peer;
    let told = write_event(recorder.order.verbosity, peer, "connected", out);
    let told = told.and(record_connection(
        recorder.alloc,
        connection,
        number,
        recorder.order.limits(),
        &recorder.place,
        recorder.order.verbosity,
        out,
    ));
    told.and(write_event(recorder.order.verbosity, peer, "ended", out))
}

// Tells once a second which peers have no session, and how often none could be accepted, if that was so.
fn tell_forever<W: WriteLines, R: Clock + Wait>(
    rt: &R,
    shared: &Mutex<SharedCounts>,
    room: &Mutex<SessionRoom>,
    out: &mut W,
) {
    for _ in rt.forever() {
        thread::sleep(rt, Duration::from_secs(BETWEEN_LINES));
        let refused = shared.lock(rt).take_refused();
        let turned_away = room.lock(rt).take_turned_away();
        let not_accepted = shared.lock(rt).take_not_accepted();
        // (a line that can't be written stops nothing)
        let _ = write_unserved(refused, turned_away, not_accepted, out);
    }
}
