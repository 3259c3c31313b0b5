//! The lines of a session that has ended, with its peer in place of a number.

ghost use Rattle.report_writing.specs.Writing.{Tells};
ghost use Rattle.recording_lines.specs.RecordLines.{peer_domain_lines, peer_fault_line, peer_loss_line, peer_loss_lines, peer_reason_line};

use ipfix_session::DomainReport;
use report_writing::WriteLines;
use std::io;
use std::net::SocketAddr;

/// Writes what the sequence numbers of a session's domains say: a line for each whose records were lost or
/// whose number went backward.
pub fn write_peer_losses<W: WriteLines>(
    peer: SocketAddr,
    domains: &[DomainReport],
    out: &mut W,
) -> io::Result<()>
    ensures { Tells W.lines out.old out.new result
        (peer_loss_lines peer domains.now) }
{
    for domain in domains {
        write_peer_domain(peer, domain, out)?;
    }
    Ok(())
}

fn write_peer_domain<W: WriteLines>(
    peer: SocketAddr,
    domain: &DomainReport,
    out: &mut W,
) -> io::Result<()>
    ensures { Tells W.lines out.old out.new result
        (peer_domain_lines peer domain.now) }
{
    if domain.lost == 0 && domain.backward == 0 {
        return Ok(());
    }
    write_peer_loss(peer, domain, out)
}

#[tactic(auto, unfolding(crate::specs::RecordLines::peer_loss_line))]
fn write_peer_loss<W: WriteLines>(
    peer: SocketAddr,
    report: &DomainReport,
    out: &mut W,
) -> io::Result<()>
    ensures { Tells W.lines out.old out.new result
        (peer_loss_line peer report.now) }
{
    let DomainReport {
        domain,
        count: _,
        lost,
        backward,
    } = *report;
    writeln!(
        out,
        "collectd: session {peer}: domain {domain}: lost {lost} backward {backward}"
    )
}

/// Writes the fault of a session.
#[tactic(auto, unfolding(crate::specs::RecordLines::peer_fault_line))]
pub fn write_peer_fault<W: WriteLines>(
    peer: SocketAddr,
    number: u8,
    name: &str,
    out: &mut W,
) -> io::Result<()>
    ensures { Tells W.lines out.old out.new result
        (peer_fault_line peer number name.now) }
{
    writeln!(out, "collectd: session {peer}: fault {number} {name}")
}

/// Writes the fault of a session, and why the system made it one.
#[tactic(auto, unfolding(crate::specs::RecordLines::peer_reason_line))]
pub fn write_peer_reason<W: WriteLines>(
    peer: SocketAddr,
    number: u8,
    name: &str,
    words: &str,
    out: &mut W,
) -> io::Result<()>
    ensures { Tells W.lines out.old out.new result
        (peer_reason_line peer number name.now words.now) }
{
    writeln!(
        out,
        "collectd: session {peer}: fault {number} {name}: {words}"
    )
}
