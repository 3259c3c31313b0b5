//! The lines of peers that have no session.

ghost use Rattle.report_writing.specs.Writing.{Tells};
ghost use Rattle.recording_connections.specs.Refusals.{not_accepted_lines, refused_lines, unserved_lines};

use crate::connection_lines::write_turned_away;
use crate::shared_counts::RefusedPeers;
use recording_lines::{write_not_accepted, write_refused};
use report_writing::WriteLines;
use std::io;

/// Writes how many peers were refused, how many were turned away while all sessions were at work, and how often no connection
/// could be accepted, if that was so. Each line is written though one before it can't be; the first error is the answer.
pub(crate) fn write_unserved<W: WriteLines>(
    refused: Option<RefusedPeers>,
    turned_away: Option<RefusedPeers>,
    not_accepted: u64,
    out: &mut W,
) -> io::Result<()>
    ensures { Tells W.lines out.old out.new result
        (unserved_lines refused turned_away not_accepted) }
{
    let told = write_refused_peers(refused, out);
    let told = told.and(write_turned_away(turned_away, out));
    told.and(write_accept_failures(not_accepted, out))
}

fn write_refused_peers<W: WriteLines>(refused: Option<RefusedPeers>, out: &mut W) -> io::Result<()>
    ensures { Tells W.lines out.old out.new result (refused_lines refused) }
{
    match refused {
        None => Ok(()),
        Some(RefusedPeers { count, last }) => write_refused(count, last, out),
    }
}

fn write_accept_failures<W: WriteLines>(count: u64, out: &mut W) -> io::Result<()>
    ensures { Tells W.lines out.old out.new result (not_accepted_lines count) }
{
    if count == 0 {
        return Ok(());
    }
    write_not_accepted(count, out)
}
