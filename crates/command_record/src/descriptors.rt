//! How many descriptors there are, and how many peers are kept with them.

ghost use Rattle.std.specs.Prelude.{◌≡◌};
ghost use Rattle.std.specs.Int.NonZero.{non_zero_usize_get};
ghost use Rattle.report_writing.specs.Told.{AreToldTo};
ghost use Rattle.report_writing.specs.Writing.{Tells};
ghost use Rattle.command_record.specs.Limits.{descriptors_line, fewer_lines, kept_of, peers_lines, peers_within as most_within, sessions_of as taken_by};

use cli_inputs::RecordArguments;
use libc::types::rlimit;
use libc::{RLIMIT_NOFILE, getrlimit};
use report_writing::WriteLines;
use std::io;
use std::num::NonZeroUsize;

/// How many descriptors a session needs.
const OF_A_SESSION: u64 = 3;

/// How many a run needs beside its sessions and peers.
const OF_A_RUN: u64 = 32;

/// How many descriptors the process may have (`ulimit -n`), if the system says it.
pub(crate) fn descriptor_limit() -> Option<u64> {
    let mut limit = rlimit {
        rlim_cur: 0,
        rlim_max: 0,
    };
    match getrlimit(RLIMIT_NOFILE, &mut limit) {
        0 => Some(limit.rlim_cur),
        _ => None,
    }
}

/// How many peers that send datagrams are kept: as many as are asked for, or as there are descriptors for. If those are fewer,
/// `err` has a line.
pub(crate) fn peers_of<E: WriteLines>(
    limit: Option<u64>,
    arguments: &RecordArguments,
    err: &mut E,
) -> NonZeroUsize
    ensures kept { non_zero_usize_get result ≡ kept_of limit arguments.now }
    ensures told { AreToldTo E.lines err.old err.new (peers_lines limit arguments.now) }
{
    let kept = kept_peers(limit, arguments);
    if let Some(limit) = limit {
        let _ = write_fewer(limit, kept.get(), arguments.peers.get(), err);
    }
    kept
}

fn kept_peers(limit: Option<u64>, arguments: &RecordArguments) -> NonZeroUsize
    ensures { non_zero_usize_get result ≡ kept_of limit arguments.now }
{
    match (limit, arguments.udp) {
        (Some(limit), Some(_)) => peers_within(limit, sessions_of(arguments), arguments.peers),
        _ => arguments.peers,
    }
}

// How many sessions of connections are recorded at once.
fn sessions_of(arguments: &RecordArguments) -> usize
    ensures { result ≡ taken_by arguments.now }
{
    match arguments.listen {
        Some(_) => arguments.sessions,
        None => 0,
    }
}

// How many peers can be kept with so many descriptors beside so many sessions, of those that are asked for: one at least. A
// peer needs one, and a second one while a period ends.
fn peers_within(limit: u64, sessions: usize, peers: NonZeroUsize) -> NonZeroUsize
    ensures { non_zero_usize_get result
        ≡ most_within limit sessions (non_zero_usize_get peers) }
{
    let of_sessions = OF_A_SESSION.saturating_mul(sessions as u64);
    let left = limit.saturating_sub(of_sessions).saturating_sub(OF_A_RUN) / 2;
    let within = peers.get().min((left as usize).max(1));
    NonZeroUsize::new(within).unwrap_or(peers)
}

// Writes how many peers are kept since there are no more descriptors, if those are fewer than are asked for.
fn write_fewer<W: WriteLines>(limit: u64, kept: usize, peers: usize, out: &mut W) -> io::Result<()>
    ensures { Tells W.lines out.old out.new result (fewer_lines limit kept peers) }
{
    if kept < peers {
        write_descriptors(limit, kept, peers, out)
    } else {
        Ok(())
    }
}

#[tactic(auto, unfolding(crate::specs::Limits::descriptors_line))]
fn write_descriptors<W: WriteLines>(
    limit: u64,
    within: usize,
    peers: usize,
    out: &mut W,
) -> io::Result<()>
    ensures { Tells W.lines out.old out.new result
        (descriptors_line limit within peers) }
{
    writeln!(
        out,
        "collectd: record: descriptors {limit}: peers {within} of {peers}"
    )
}
