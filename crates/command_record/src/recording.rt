//! Recording as the words say it.

ghost use Rattle.std.specs.Prelude.{◌≡◌, ◌↔◌, ◌⊎◌, IfErr, IfOk, IsOk, IsSome, OnErr, OnOk, codes};
ghost use Rattle.std.specs.IoError.{error_kind};
ghost use Rattle.report_writing.specs.OpeningLines.{because_line};
ghost use Rattle.report_writing.specs.Reasons.{reason_of};
ghost use Rattle.report_writing.specs.Told.{AreToldTo};
ghost use Rattle.command_record.specs.Beginning.{no_address_text};
ghost use Rattle.command_record.specs.Limits.{first_read_back, idle_seconds};
ghost use Rattle.command_record.specs.PeerPrefixes.{IsFilterOf, TellsWhy};

use crate::beginning::{Intake, write_beginning};
use crate::descriptors::{descriptor_limit, peers_of};
use crate::peer_prefixes::filter_of;
use crate::system::{Sockets, run_recorder};
use cli_inputs::{RecordArguments, WITH_REASONS, listen_on, tell_folder};
use recording_connections::{OpenRecordings, RecordOrder, open_recordings};
use recording_datagrams::{DatagramLimits, SystemSocket};
use recording_folder::second_now;
use recording_lines::WholeLines;
use report_writing::{Reason, Status, WriteLines, write_not_had_because};
use std::alloc::Global;
use std::io::{self, Stderr};
use std::net::TcpListener;
use std::num::NonZeroUsize;
use std::rt::Clock;
use std::sync::Wait;
use std::thread::Threads;

/// How many seconds a peer that sends datagrams may be silent, if no time is given.
const IDLE: u64 = 1800;

/// What is written if neither an address for connections nor one for datagrams is given.
const NO_ADDRESS: &str = "error: one of these is required, or both:
  --listen <ADDR>
  --udp <ADDR>

For more information, try '--help'.
";

/// `collectd record`: what comes over connections and in datagrams to files in a folder, for ever.
pub fn record<R: Clock + Threads + Wait + Sync>(
    threads: &R,
    rt: &HostRuntime,
    arguments: &RecordArguments,
) -> Result<Status, Status>
    ensures ended { IfOk result (λ status. status ≡ Status.Failed) }
    ensures refused { IfErr result (λ status. status ≡ Status.NotOpened) }
{
    let mut err = rt.stderr();
    check_addresses(arguments, &mut err)?;
    let order = order_of(rt.alloc(), arguments, &mut err)?;
    let listener = open_listener(rt, arguments, &mut err)?;
    let socket = open_socket(rt, arguments, &mut err)?;
    let since = since_of(arguments, second_now(rt));
    match open_recordings(rt, rt.alloc(), arguments.into, since, err) {
        Ok(OpenRecordings { folder, earlier }) => {
            let sockets = Sockets {
                listener,
                socket,
                earlier,
            };
            let mut lines = WholeLines::new(err);
            let peers = peers_of(descriptor_limit(), arguments, &mut lines);
            let limits = limits_of(arguments, peers);
            let intake = Intake::of(&sockets, &order, &limits);
            let _ = write_beginning(arguments.into, intake, &mut lines);
            Ok(run_recorder(
                threads,
                rt,
                rt.alloc(),
                sockets,
                &folder,
                &order,
                limits,
                err,
            ))
        }
        Err(fault) => {
            tell_folder(arguments.into, &fault, &mut err);
            Err(Status::NotOpened)
        }
    }
}

// Sees to it that connections or datagrams are taken, or both. If neither is, `err` has lines that say what is required.
fn check_addresses<E: WriteLines>(arguments: &RecordArguments, err: &mut E) -> Result<(), Status>
    ensures given { IsOk result ↔ (IsSome arguments.now.listen ⊎ IsSome arguments.now.udp) }
    ensures silent { OnOk result (err.new ≡ err.old) }
    ensures refused { IfErr result (λ status. status ≡ Status.NotOpened) }
    ensures told { OnErr result (AreToldTo E.lines err.old err.new no_address_text) }
{
    if arguments.listen.is_some() || arguments.udp.is_some() {
        return Ok(());
    }
    let _ = err.write_all(NO_ADDRESS.as_bytes());
    Err(Status::NotOpened)
}

// The listener for connections, if they are taken. If it can't be had, `err` has a line.
fn open_listener(
    rt: &HostRuntime,
    arguments: &RecordArguments,
    err: &mut Stderr,
) -> Result<Option<TcpListener>, Status>
    ensures listens { IfOk result (λ listener. IsSome listener ↔ IsSome arguments.now.listen) }
    ensures refused { IfErr result (λ status. status ≡ Status.NotOpened) }
{
    let Some(addr) = arguments.listen else {
        return Ok(None);
    };
    match listen_on(rt, addr, WITH_REASONS, err) {
        Ok(listener) => Ok(Some(listener)),
        Err(_) => Err(Status::NotOpened),
    }
}

// The socket for datagrams, if they are taken. If it can't be had, `err` has a line.
fn open_socket(
    rt: &HostRuntime,
    arguments: &RecordArguments,
    err: &mut Stderr,
) -> Result<Option<SystemSocket>, Status>
    ensures receives { IfOk result (λ socket. IsSome socket ↔ IsSome arguments.now.udp) }
    ensures refused { IfErr result (λ status. status ≡ Status.NotOpened) }
{
    let Some(addr) = arguments.udp else {
        return Ok(None);
    };
    match SystemSocket::bind(rt, addr, arguments.buffer) {
        Ok(socket) => Ok(Some(socket)),
        Err(error) => {
            tell_socket(addr, &error, err);
            Err(Status::NotOpened)
        }
    }
}

// Writes the line of a socket for datagrams that can't be had.
fn tell_socket<E: WriteLines>(addr: &str, error: &io::Error, err: &mut E)
    ensures { AreToldTo E.lines err.old err.new
        (because_line (codes "udp") addr.now (reason_of (error_kind error.now))) }
{
    let reason = Reason::of(error);
    let _ = write_not_had_because(WITH_REASONS, "udp", addr, reason, err);
}

// From which second on (since 1970) periods begin of which what peers sent is read back: when the first period began that
// ended no longer ago than a peer may be silent. Without datagrams nothing is read back.
fn since_of(arguments: &RecordArguments, now: u64) -> u64
    ensures { result ≡ first_read_back arguments.now now }
{
    match arguments.udp {
        Some(_) => now
            .saturating_sub(idle_of(arguments))
            .saturating_sub(arguments.every.get()),
        None => u64::MAX,
    }
}

// How many seconds a peer may be silent.
fn idle_of(arguments: &RecordArguments) -> u64
    ensures { result ≡ idle_seconds arguments.now.idle }
{
    match arguments.idle {
        Some(limit) => limit.as_secs(),
        None => IDLE,
    }
}

// How many peers that send datagrams are kept, how long each may be silent, for how long a datagram waits, and what their
// templates may count.
fn limits_of(arguments: &RecordArguments, peers: NonZeroUsize) -> DatagramLimits
    ensures most { result.most ≡ peers }
    ensures idle { result.idle ≡ idle_seconds arguments.now.idle }
    ensures reorder { result.reorder ≡ arguments.now.reorder }
    ensures templates { result.templates ≡ arguments.now.templates }
{
    DatagramLimits {
        most: peers,
        idle: idle_of(arguments),
        reorder: arguments.reorder,
        templates: arguments.templates,
    }
}

// What is recorded, and how. If a word for peers is no prefix, `err` has a line.
fn order_of<E: WriteLines>(
    alloc: Global,
    arguments: &RecordArguments,
    err: &mut E,
) -> Result<RecordOrder, Status>
    ensures every { IfOk result (λ order. order.every ≡ arguments.now.every) }
    ensures sessions { IfOk result (λ order. order.sessions ≡ arguments.now.sessions) }
    ensures idle { IfOk result (λ order. order.idle ≡ arguments.now.idle) }
    ensures templates { IfOk result (λ order. order.templates ≡ arguments.now.templates) }
    ensures verbosity { IfOk result (λ order. order.verbosity ≡ arguments.now.verbosity) }
    ensures filter { IfOk result (λ order. IsFilterOf arguments.now.prefixes.now order.filter) }
    ensures silent { OnOk result (err.new ≡ err.old) }
    ensures refused { IfErr result (λ status. status ≡ Status.NotOpened) }
    ensures told { OnErr result
        (TellsWhy E.lines err.old err.new arguments.now.prefixes.now) }
{
    Ok(RecordOrder {
        every: arguments.every,
        sessions: arguments.sessions,
        idle: arguments.idle,
        templates: arguments.templates,
        verbosity: arguments.verbosity,
        filter: filter_of(alloc, arguments.prefixes, err)?,
    })
}
