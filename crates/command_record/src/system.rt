//! Recording in a folder of the system, over connections and from datagrams.

ghost use Rattle.std.specs.Prelude.{◌≡◌};

use crate::watching::watch;
use recording_connections::{RecordOrder, RecorderRun, SharedCounts, run_record};
use recording_datagrams::{DatagramLimits, SystemSocket, run_datagrams};
use recording_folder::{EarlierPeers, Folder};
use recording_lines::{WholeLines, write_threads};
use recording_log::{LineQueue, LineSender, QueuedLines};
use report_writing::Status;
use std::alloc::Global;
use std::io::Write;
use std::net::TcpListener;
use std::rt::Clock;
use std::sync::{Mutex, Wait};
use std::thread::{self, Threads};

/// Where sessions come from, and what an earlier run left of the peers that send datagrams.
#[derive(Drop)]
pub struct Sockets {
    pub listener: Option<TcpListener>,
    pub socket: Option<SystemSocket>,
    pub earlier: EarlierPeers,
}

/// Records in a folder what comes through the sockets, for ever: connections in as many threads as the order
/// says, and all datagrams in one, beside which others finish the files of peers. Their lines wait in a queue for a thread
/// that writes them, so that nobody waits for who reads them; without that thread each is written where it arises. It ends
/// only if no thread can be started.
pub fn run_recorder<E: Write + Copy + Send + Sync + Drop, R: Clock + Threads + Wait + Sync>(
    threads: &R,
    rt: &HostRuntime,
    alloc: Global,
    sockets: Sockets,
    folder: &Folder,
    order: &RecordOrder,
    limits: DatagramLimits,
    err: E,
) -> Status
    ensures { result ≡ Status.Failed }
{
    let shared = Mutex::new(SharedCounts::new());
    let run = RecorderRun {
        threads,
        rt,
        alloc,
        folder,
        order,
        shared: &shared,
    };
    match (LineQueue::new(alloc), QueuedLines::new(alloc)) {
        (Ok(queue), Ok(lines)) => run_beside_writer(run, sockets, limits, &queue, lines, err),
        _ => run_sockets(run, sockets, limits, err),
    }
}

// Starts the thread that writes the lines of a queue, and records beside it. At the end the rest of the lines is written.
fn run_beside_writer<E: Write + Copy + Send + Sync + Drop, R: Clock + Threads + Wait + Sync>(
    run: RecorderRun<R>,
    sockets: Sockets,
    limits: DatagramLimits,
    queue: &LineQueue,
    lines: QueuedLines,
    err: E,
) -> Status
    ensures { result ≡ Status.Failed }
{
    let RecorderRun {
        threads,
        rt,
        alloc,
        folder,
        order,
        shared,
    } = run;
    thread::scope(
        thread::scope_env(),
        threads,
        |scope| -> Status
            ensures { result ≡ Status.Failed }
        {
            let run = RecorderRun {
                threads,
                rt,
                alloc,
                folder,
                order,
                shared,
            };
            let write_out = move || {
                let mut err = err;
                queue.write_out(threads, lines, &mut err);
            };
            if scope.spawn(write_out).is_err() {
                return run_sockets(run, sockets, limits, err);
            }
            let lines = LineSender {
                queue,
                waiting: threads,
            };
            // (without a thread for it nothing is watched)
            let watch_run = move || watch(threads, rt, folder, lines);
            let _ = scope.spawn(watch_run);
            let status = run_sockets(run, sockets, limits, lines);
            queue.close(threads);
            status
        },
    )
}

// Records what comes through the sockets.
fn run_sockets<E: Write + Copy + Send + Sync + Drop, R: Clock + Threads + Wait + Sync>(
    run: RecorderRun<R>,
    sockets: Sockets,
    limits: DatagramLimits,
    err: E,
) -> Status
    ensures { result ≡ Status.Failed }
{
    let Sockets {
        listener,
        socket,
        earlier,
    } = sockets;
    match (listener, socket) {
        (Some(listener), Some(socket)) => run_both(run, listener, socket, earlier, limits, err),
        (Some(listener), None) => run_record(run, listener, err),
        (None, Some(socket)) => {
            run_datagrams(run, socket, earlier, limits, err);
            Status::Failed
        }
        (None, None) => Status::Failed,
    }
}

// Starts the thread of the datagrams, and records what comes over connections beside it.
fn run_both<E: Write + Copy + Send + Sync + Drop, R: Clock + Threads + Wait + Sync>(
    run: RecorderRun<R>,
    listener: TcpListener,
    socket: SystemSocket,
    earlier: EarlierPeers,
    limits: DatagramLimits,
    err: E,
) -> Status
    ensures { result ≡ Status.Failed }
{
    let RecorderRun {
        threads,
        rt,
        alloc,
        folder,
        order,
        shared,
    } = run;
    thread::scope(
        thread::scope_env(),
        threads,
        |scope| -> Status
            ensures { result ≡ Status.Failed }
        {
            // (the parts go into the closures one by one)
            let datagrams = move || {
                let run = RecorderRun {
                    threads,
                    rt,
                    alloc,
                    folder,
                    order,
                    shared,
                };
                run_datagrams(run, socket, earlier, limits, err);
            };
            if scope.spawn(datagrams).is_err() {
                let _ = write_threads(0, 1, &mut WholeLines::new(err));
                return Status::Failed;
            }
            let run = RecorderRun {
                threads,
                rt,
                alloc,
                folder,
                order,
                shared,
            };
            run_record(run, listener, err)
        },
    )
}
