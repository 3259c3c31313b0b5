//! The lines of connections.

ghost use Rattle.report_writing.specs.Writing.{Tells};
ghost use Rattle.recording_connections.specs.ConnectionLines.{event_line, turned_away_line, turned_away_lines};
ghost use Rattle.report_writing.specs.OpeningLines.{if_verbose};

use crate::shared_counts::RefusedPeers;
use report_writing::{Verbosity, WriteLines};
use std::io;
use std::net::SocketAddr;

/// Writes how many peers were turned away while all sessions were at work, and which was the last, if there were any.
pub(crate) fn write_turned_away<W: WriteLines>(
    peers: Option<RefusedPeers>,
    out: &mut W,
) -> io::Result<()>
    ensures { Tells W.lines out.old out.new result (turned_away_lines peers) }
{
    match peers {
        None => Ok(()),
        Some(RefusedPeers { count, last }) => write_turned_away_line(count, last, out),
    }
}

#[tactic(auto, unfolding(crate::specs::ConnectionLines::turned_away_line))]
fn write_turned_away_line<W: WriteLines>(
    count: u64,
    last: SocketAddr,
    out: &mut W,
) -> io::Result<()>
    ensures { Tells W.lines out.old out.new result (turned_away_line count last) }
{
    writeln!(
        out,
        "collectd: refused {count} connections, last {last}: all sessions in use"
    )
}

/// Writes what happens to the session of a peer, if more is asked for.
pub(crate) fn write_event<W: WriteLines>(
    verbosity: Verbosity,
    peer: SocketAddr,
    event: &str,
    out: &mut W,
) -> io::Result<()>
    ensures { Tells W.lines out.old out.new result
        (if_verbose verbosity (event_line peer event.now)) }
{
    if verbosity.verbose {
        write_event_line(peer, event, out)
    } else {
        Ok(())
    }
}

#[tactic(auto, unfolding(crate::specs::ConnectionLines::event_line))]
fn write_event_line<W: WriteLines>(peer: SocketAddr, event: &str, out: &mut W) -> io::Result<()>
    ensures { Tells W.lines out.old out.new result (event_line peer event.now) }
{
    writeln!(out, "collectd: session {peer}: {event}")
}
