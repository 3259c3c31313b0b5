//! The lines that tell what was opened and what is waited for, and why something was not had.

ghost use Rattle.std.specs.Prelude.{◌≡◌};
ghost use Rattle.report_writing.specs.OpeningLines.{if_verbose, listening_line, not_had_lines, opened_line, opened_text as text_of_opened};
ghost use Rattle.report_writing.specs.FaultLines.{not_had_with};
ghost use Rattle.report_writing.specs.Writing.{Tells};

use crate::faults::write_not_had;
use crate::origin::{Origin, write_session_start};
use crate::reason::Reason;
use crate::verbosity::Verbosity;
use crate::write_lines::WriteLines;
use std::io;

/// Writes the line of a session, counted from 1, whose file was opened or whose connection was accepted.
/// Nothing is written unless `verbosity` is verbose.
pub fn write_opened<W: WriteLines>(
    verbosity: Verbosity,
    session: usize,
    origin: &Origin,
    out: &mut W,
) -> io::Result<()>
    ensures { Tells W.lines out.old out.new result
        (if_verbose verbosity (opened_line session origin.now)) }
{
    if verbosity.verbose {
        write_opened_line(session, origin, out)
    } else {
        Ok(())
    }
}

fn write_opened_line<W: WriteLines>(session: usize, origin: &Origin, out: &mut W) -> io::Result<()>
    ensures { Tells W.lines out.old out.new result (opened_line session origin.now) }
{
    write_session_start(session, origin, out)?;
    out.write_all(opened_text(origin).as_bytes())
}

fn opened_text(origin: &Origin) -> &'static str
    ensures { result.now ≡ text_of_opened origin.now }
{
    match origin {
        Origin::File { .. } | Origin::Unknown => ": opened\n",
        Origin::Peer(_) => ": accepted\n",
    }
}

/// Writes the line that says for how many connections there is a wait at an address. Nothing is written
/// unless `verbosity` is verbose.
pub fn write_listening<W: WriteLines>(
    verbosity: Verbosity,
    address: &str,
    connections: usize,
    out: &mut W,
) -> io::Result<()>
    ensures { Tells W.lines out.old out.new result
        (if_verbose verbosity (listening_line address.now connections)) }
{
    if verbosity.verbose {
        write_listening_line(address, connections, out)
    } else {
        Ok(())
    }
}

#[tactic(auto, unfolding(crate::specs::OpeningLines::listening_line))]
fn write_listening_line<W: WriteLines>(
    address: &str,
    connections: usize,
    out: &mut W,
) -> io::Result<()>
    ensures { Tells W.lines out.old out.new result
        (listening_line address.now connections) }
{
    writeln!(
        out,
        "collectd: listening: {address}: connections {connections}"
    )
}

/// Writes the line of what the system did not give, as [`write_not_had`] does, and the reason at its end
/// if `verbosity` is verbose.
pub fn write_not_had_because<W: WriteLines>(
    verbosity: Verbosity,
    what: &str,
    name: &str,
    reason: Reason,
    out: &mut W,
) -> io::Result<()>
    ensures { Tells W.lines out.old out.new result
        (not_had_lines verbosity what.now name.now reason) }
{
    if verbosity.verbose {
        write_because(what, name, reason.words(), out)
    } else {
        write_not_had(what, name, out)
    }
}

#[tactic(auto, unfolding(crate::specs::FaultLines::not_had_line))]
fn write_because<W: WriteLines>(what: &str, name: &str, words: &str, out: &mut W) -> io::Result<()>
    ensures { Tells W.lines out.old out.new result
        (not_had_with what.now name.now words.now) }
{
    writeln!(out, "collectd: {what}: {name}: {words}")
}
