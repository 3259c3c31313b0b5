//! The lines that tell what sessions lost, and how they ended.

ghost use Rattle.std.specs.List.{flat_map};
ghost use Rattle.report_sessions.specs.ReportLines.{domain_lines, fault_line, loss_line, report_lines, session_lines};
ghost use Rattle.report_writing.specs.Writing.{Tells};

use ipfix_session::{DomainReport, SessionReport};
use report_writing::WriteLines;
use std::io;

/// Writes what there is to tell of sessions, counted from 1: a line for each domain whose sequence
/// numbers tell a loss or a step backward, and then a line for the session's fault.
pub fn write_reports<W: WriteLines>(reports: &[SessionReport], out: &mut W) -> io::Result<()>
    ensures { Tells W.lines out.old out.new result (report_lines reports.now) }
{
    for (index, report) in reports.iter().enumerate() {
        write_session(index + 1, report, out)?;
    }
    Ok(())
}

/// Writes what there is to tell of the session of this number.
pub fn write_session<W: WriteLines>(
    session: usize,
    report: &SessionReport,
    out: &mut W,
) -> io::Result<()>
    ensures { Tells W.lines out.old out.new result (session_lines session report.now) }
{
    write_domains(session, &report.domains, out)?;
    if let Some(fault) = report.fault {
        write_session_fault(session, fault.number(), fault.name(), out)?;
    }
    Ok(())
}

fn write_domains<W: WriteLines>(
    session: usize,
    domains: &[DomainReport],
    out: &mut W,
) -> io::Result<()>
    ensures { Tells W.lines out.old out.new result
        (flat_map (domain_lines session) domains.now) }
{
    for domain in domains {
        if domain.lost > 0 || domain.backward > 0 {
            write_loss(session, domain, out)?;
        }
    }
    Ok(())
}

#[tactic(auto, unfolding(crate::specs::ReportLines::loss_line))]
fn write_loss<W: WriteLines>(session: usize, report: &DomainReport, out: &mut W) -> io::Result<()>
    ensures { Tells W.lines out.old out.new result (loss_line session report.now) }
{
    let DomainReport {
        domain,
        count: _,
        lost,
        backward,
    } = *report;
    writeln!(
        out,
        "collectd: session {session}: domain {domain}: lost {lost} backward {backward}"
    )
}

#[tactic(auto, unfolding(report_writing::specs::FaultLines::fault_text))]
fn write_session_fault<W: WriteLines>(
    session: usize,
    number: u8,
    name: &str,
    out: &mut W,
) -> io::Result<()>
    ensures { Tells W.lines out.old out.new result
        (fault_line session number name.now) }
{
    writeln!(out, "collectd: session {session}: fault {number} {name}")
}
