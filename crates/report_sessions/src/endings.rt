//! The lines that tell how a session ended.

ghost use Rattle.report_sessions.specs.ToldLines.{end_told, ended_line, ended_text, fault_place_lines, left_text, number_left, place_text};
ghost use Rattle.report_writing.specs.Writing.{Tells};

use crate::read_failures::{read_reason, write_read_failed};
use ipfix_session::{FullReport, MessagePlace, SessionFault};
use report_writing::{Origin, Verbosity, WriteLines, write_session_start};
use std::io::{self, ErrorKind};

/// Writes how a session ended, if verbose lines are asked for: the place of its fault, why its source could not
/// be read on if that is known, and then how much of it counts.
pub fn write_end<W: WriteLines>(
    verbosity: Verbosity,
    session: usize,
    origin: &Origin,
    failure: Option<ErrorKind>,
    full: &FullReport,
    out: &mut W,
) -> io::Result<()>
    ensures { Tells W.lines out.old out.new result
        (end_told verbosity session origin.now failure full.now) }
{
    if verbosity.verbose {
        write_fault_place(session, origin, full.report.fault, full.stopped_at, out)?;
        let reason = read_reason(full.report.fault, failure);
        write_read_failed(session, origin, reason, out)?;
        write_ended(session, origin, full, out)
    } else {
        Ok(())
    }
}

// The fault, where the first message begins that doesn't count, and how many octets there are from there on.
fn write_fault_place<W: WriteLines>(
    session: usize,
    origin: &Origin,
    fault: Option<SessionFault>,
    place: MessagePlace,
    out: &mut W,
) -> io::Result<()>
    ensures { Tells W.lines out.old out.new result
        (fault_place_lines session origin.now fault place) }
{
    match fault {
        None => Ok(()),
        Some(fault) => {
            write_session_start(session, origin, out)?;
            write_place(fault.number(), fault.name(), place, out)?;
            write_left(origin.octets_from(place.octet), out)
        }
    }
}

#[tactic(auto, unfolding(crate::specs::ToldLines::place_text))]
fn write_place<W: WriteLines>(
    number: u8,
    name: &str,
    place: MessagePlace,
    out: &mut W,
) -> io::Result<()>
    ensures { Tells W.lines out.old out.new result (place_text number name.now place) }
{
    let MessagePlace { message, octet } = place;
    write!(
        out,
        ": fault {number} {name}: message {message} octet {octet}"
    )
}

fn write_left<W: WriteLines>(octets: Option<u64>, out: &mut W) -> io::Result<()>
    ensures { Tells W.lines out.old out.new result (left_text octets) }
{
    match octets {
        None => writeln!(out),
        Some(octets) => write_number_left(octets, out),
    }
}

#[tactic(auto, unfolding(crate::specs::ToldLines::number_left))]
fn write_number_left<W: WriteLines>(octets: u64, out: &mut W) -> io::Result<()>
    ensures { Tells W.lines out.old out.new result (number_left octets) }
{
    writeln!(out, " unread {octets}")
}

fn write_ended<W: WriteLines>(
    session: usize,
    origin: &Origin,
    full: &FullReport,
    out: &mut W,
) -> io::Result<()>
    ensures { Tells W.lines out.old out.new result
        (ended_line session origin.now full.now) }
{
    write_session_start(session, origin, out)?;
    write_counts(
        full.report.messages,
        full.stopped_at.octet,
        full.report.delivered,
        out,
    )
}

#[tactic(auto, unfolding(crate::specs::ToldLines::ended_text))]
fn write_counts<W: WriteLines>(
    messages: u64,
    octets: u64,
    records: u64,
    out: &mut W,
) -> io::Result<()>
    ensures { Tells W.lines out.old out.new result
        (ended_text messages octets records) }
{
    writeln!(
        out,
        ": ended: messages {messages} octets {octets} records {records}"
    )
}
