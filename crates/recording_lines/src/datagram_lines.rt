//! The lines of peers that send datagrams.

ghost use Rattle.report_writing.specs.Writing.{Tells};
ghost use Rattle.recording_lines.specs.RecordLines.{advance_line, not_received_line, order_line, peer_ended_line, refused_datagrams_line, resumed_line, system_drops_line, turned_away_line};

use report_writing::WriteLines;
use std::io;
use std::net::SocketAddr;

/// Writes how many datagrams of a peer were refused, and the fault of the last.
#[tactic(auto, unfolding(crate::specs::RecordLines::refused_datagrams_line))]
pub fn write_refused_datagrams<W: WriteLines>(
    peer: SocketAddr,
    count: u64,
    number: u8,
    name: &str,
    out: &mut W,
) -> io::Result<()>
    ensures { Tells W.lines out.old out.new result
        (refused_datagrams_line peer count number name.now) }
{
    writeln!(
        out,
        "collectd: session {peer}: refused {count} datagrams, last fault {number} {name}"
    )
}

/// Writes that a peer was ended, and why.
#[tactic(auto, unfolding(crate::specs::RecordLines::peer_ended_line))]
pub fn write_peer_ended<W: WriteLines>(peer: SocketAddr, why: &str, out: &mut W) -> io::Result<()>
    ensures { Tells W.lines out.old out.new result
        (peer_ended_line peer why.now) }
{
    writeln!(out, "collectd: session {peer}: ended: {why}")
}

/// Writes how far the sequence number of a domain advanced, and how many data records came.
#[tactic(auto, unfolding(crate::specs::RecordLines::advance_line))]
pub fn write_advance<W: WriteLines>(
    peer: SocketAddr,
    domain: u32,
    advance: u64,
    came: u64,
    out: &mut W,
) -> io::Result<()>
    ensures { Tells W.lines out.old out.new result
        (advance_line peer domain advance came) }
{
    writeln!(
        out,
        "collectd: session {peer}: domain {domain}: sequence numbers advanced by {advance}, records {came}"
    )
}

/// Writes how many datagrams of a domain came twice (RFC 7011, section 8.2), and how many were written before
/// one that came earlier.
#[tactic(auto, unfolding(crate::specs::RecordLines::order_line))]
pub fn write_order<W: WriteLines>(
    peer: SocketAddr,
    domain: u32,
    doubled: u64,
    reordered: u64,
    out: &mut W,
) -> io::Result<()>
    ensures { Tells W.lines out.old out.new result
        (order_line peer domain doubled reordered) }
{
    writeln!(
        out,
        "collectd: session {peer}: domain {domain}: doubled {doubled}, reordered {reordered}"
    )
}

/// Writes that a domain went on after an earlier run, and how many templates are known again.
#[tactic(auto, unfolding(crate::specs::RecordLines::resumed_line))]
pub fn write_resumed<W: WriteLines>(
    peer: SocketAddr,
    domain: u32,
    templates: usize,
    out: &mut W,
) -> io::Result<()>
    ensures { Tells W.lines out.old out.new result
        (resumed_line peer domain templates) }
{
    writeln!(
        out,
        "collectd: session {peer}: domain {domain}: resumed: templates {templates}"
    )
}

/// Writes how many datagrams of peers that have no session were refused, and which peer sent the last.
#[tactic(auto, unfolding(crate::specs::RecordLines::turned_away_line))]
pub fn write_turned_away<W: WriteLines>(count: u64, last: SocketAddr, out: &mut W) -> io::Result<()>
    ensures { Tells W.lines out.old out.new result
        (turned_away_line count last) }
{
    writeln!(out, "collectd: refused {count} datagrams, last {last}")
}

/// Writes how often no datagram could be received.
#[tactic(auto, unfolding(crate::specs::RecordLines::not_received_line))]
pub fn write_not_received<W: WriteLines>(count: u64, out: &mut W) -> io::Result<()>
    ensures { Tells W.lines out.old out.new result
        (not_received_line count) }
{
    writeln!(out, "collectd: record: receive failed {count} times")
}

/// Writes how many datagrams the system dropped that came to an address, since the buffer of its socket was full.
#[tactic(auto, unfolding(crate::specs::RecordLines::system_drops_line))]
pub fn write_system_drops<W: WriteLines>(
    address: SocketAddr,
    count: u64,
    out: &mut W,
) -> io::Result<()>
    ensures { Tells W.lines out.old out.new result (system_drops_line address count) }
{
    writeln!(
        out,
        "collectd: udp: {address}: dropped {count} by the system"
    )
}
