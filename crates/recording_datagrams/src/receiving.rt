//! The thread that takes datagrams, beside those that finish the files of peers.

ghost use Rattle.std.specs.Prelude.{◌≡◌, length, IfOk};
ghost use Rattle.std.specs.Int.NonZero.{non_zero_u64_get, non_zero_usize_get};
ghost use Rattle.recording_connections.specs.Refusals.{none_unserved};
ghost use Rattle.recording_folder.specs.FiledSessions.{BeginsWith};
ghost use Rattle.recording_peers.specs.Steps.{KeepsNone};

use crate::datagram_limits::DatagramLimits;
use crate::datagram_taker::DatagramTaker;
use crate::finishing::{FileQueue, start_finishers};
use crate::peer_folder::{PeerFiles, PeerFolder};
use crate::running::record_datagrams;
use crate::socket_drops::SocketDrops;
use crate::system_socket::SystemSocket;
use crossbeam_channel::bounded;
use recording_connections::{RecorderRun, RecordingFiles, SharedCounts};
use recording_files::PeriodClock;
use recording_folder::{EarlierPeers, SystemPlace};
use recording_lines::{WholeLines, write_threads};
use recording_peers::{PeerLimits, PeerPlace, Peers};
use report_writing::WriteLines;
use std::alloc::{AllocError, Global};
use std::fs::File;
use std::hash::RandomState;
use std::io::{self, Write};
use std::rt::Clock;
use std::sync::Wait;
use std::thread::{self, Threads};
use std::time::Instant;

/// How many octets a datagram has at most.
const MOST_OCTETS: usize = 65_535;

/// Records what comes in datagrams in a run, where an earlier run may have left templates of peers. Without memory for that it is told that the thread could not be started.
pub fn run_datagrams<E: Write + Copy + Send + Drop, R: Clock + Threads + Wait + Sync>(
    run: RecorderRun<R>,
    socket: SystemSocket,
    earlier: EarlierPeers,
    limits: DatagramLimits,
    err: E,
) {
    if take_all(run, socket, earlier, limits, err).is_err() {
        let _ = write_threads(0, 1, &mut WholeLines::new(err));
    }
}

// Takes room for the files of all peers after a period, and then all datagrams.
fn take_all<E: Write + Copy + Send + Drop, R: Clock + Threads + Wait + Sync>(
    run: RecorderRun<R>,
    socket: SystemSocket,
    earlier: EarlierPeers,
    limits: DatagramLimits,
    err: E,
) -> io::Result<()> {
    let (enter, leave) = bounded(run.alloc, limits.most.get())?;
    let queue = FileQueue { enter, leave };
    take_beside_finishers(run, socket, earlier, limits, &queue, err)
}

// Takes room for a datagram, starts the threads that finish files, and takes all datagrams.
fn take_beside_finishers<'x, E: Write + Copy + Send + Drop, R: Clock + Threads + Wait + Sync>(
    run: RecorderRun<'x, R>,
    socket: SystemSocket,
    earlier: EarlierPeers,
    limits: DatagramLimits,
    queue: &'x FileQueue<File>,
    err: E,
) -> io::Result<()> {
    let buffer = room_of_datagram(run.alloc)?;
    let drops = socket.drops(run.rt);
    let taker = taker_of(run, earlier, limits, queue, drops, err)?;
    let RecorderRun {
        threads,
        rt,
        alloc,
        folder,
        ..
    } = run;
    thread::scope(thread::scope_env(), threads, move |scope| {
        let mut taker = taker;
        if start_finishers(scope, threads, rt, alloc, folder, queue, err) == 0 {
            taker.place.finish_at_once();
        }
        take_forever(threads, socket, buffer, taker);
    });
    Ok(())
}

// Room for the longest datagram.
fn room_of_datagram(alloc: Global) -> Result<Vec<u8>, AllocError>
    ensures { IfOk result (λ room. length room.items ≡ 65535) }
{
    vec![in alloc; 0; MOST_OCTETS]
}

// What takes the datagrams of a run, as its order and its limits say.
fn taker_of<'x, E: Write + Copy + Drop, R: Wait>(
    run: RecorderRun<'x, R>,
    earlier: EarlierPeers,
    limits: DatagramLimits,
    queue: &'x FileQueue<File>,
    drops: Option<SocketDrops>,
    err: E,
) -> io::Result<
    DatagramTaker<
        'x,
        PeerFiles<'x, HostRuntime, R, E>,
        PeerFolder<'x, HostRuntime, R, E>,
        WholeLines<E>,
    >,
>
    ensures filter { IfOk result (λ taker. taker.filter.now ≡ run.entry.order.now.filter) }
    ensures every { IfOk result (λ taker.
        taker.place.place.every ≡ non_zero_u64_get run.entry.order.now.every) }
    ensures periods { IfOk result (λ taker.
        BeginsWith (non_zero_u64_get run.entry.order.now.every) taker.place.periods) }
    ensures most { IfOk result (λ taker.
        KeepsNone (non_zero_usize_get limits.most) taker.peers) }
    ensures idle { IfOk result (λ taker. taker.idle ≡ limits.idle) }
    ensures earlier { IfOk result (λ taker. taker.place.kept_for ≡ limits.idle) }
    ensures reorder { IfOk result (λ taker. taker.peers.limits.reorder ≡ limits.reorder) }
    ensures templates { IfOk result (λ taker. taker.peers.limits.templates ≡ limits.templates) }
    ensures second { IfOk result (λ taker. taker.second ≡ 0) }
    ensures unserved { IfOk result (λ taker. taker.unserved ≡ none_unserved) }
{
    let place = SystemPlace::new(run.rt, run.folder, run.order.every.get());
    let periods = place.periods(run.alloc)?;
    Ok(DatagramTaker {
        alloc: run.alloc,
        peers: Peers::new(
            run.alloc,
            limits.most,
            RandomState::new(run.rt)?,
            PeerLimits {
                reorder: limits.reorder,
                templates: limits.templates,
            },
        )?,
        place: PeerFolder {
            place,
            periods,
            earlier,
            kept_for: limits.idle,
            begun: Instant::now(run.rt).ok(),
            queue: Some(queue),
            shared: run.shared,
            waiting: run.threads,
            err,
            rt: run.rt,
            drops,
        },
        filter: &run.order.filter,
        idle: limits.idle,
        second: 0,
        unserved: SharedCounts::new(),
        out: WholeLines::new(err),
    })
}

// Takes all datagrams, for ever.
fn take_forever<
    F: RecordingFiles + Drop,
    P: PeerPlace<F> + PeriodClock + Drop,
    W: WriteLines + Drop,
    R: Clock + Wait,
>(waiting: &R, socket: SystemSocket, buffer: Vec<u8>, taker: DatagramTaker<F, P, W>) {
    let mut socket = socket;
    let mut buffer = buffer;
    let mut taker = taker;
    let start = Instant::now(waiting).ok();
    for _ in waiting.forever() {
        // (a line that can't be written stops nothing)
        let _ = record_datagrams(
            waiting,
            start,
            &mut socket,
            buffer.as_mut_slice(),
            &mut taker,
            u64::MAX,
        );
    }
}
