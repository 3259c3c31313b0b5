//! Why a session could not be read on, and the lines that say so.

ghost use Rattle.std.specs.Prelude.{◌≡◌};
ghost use Rattle.report_sessions.specs.ReadFailures.{read_failed_line, read_failed_lines, read_reason as reason_by, reason_text, unread_lines};
ghost use Rattle.report_writing.specs.Writing.{Tells};

use ipfix_session::SessionFault;
use report_writing::{
    Origin, Reason, Verbosity, WriteLines, write_not_had_because, write_session_start,
};
use std::io::{self, ErrorKind};

/// Why a session ended as ReadFailed, if it did and what the system answered to the read that failed is known.
pub fn read_reason(fault: Option<SessionFault>, failure: Option<ErrorKind>) -> Option<Reason>
    ensures { result ≡ reason_by fault failure }
{
    match fault {
        Some(SessionFault::ReadFailed) => failure.map(Reason::by_kind),
        _ => None,
    }
}

/// Writes the line that says why what has this name could not be read on. Nothing is written if that is not
/// known, or unless `verbosity` is verbose.
pub fn write_unread<W: WriteLines>(
    verbosity: Verbosity,
    name: &str,
    reason: Option<Reason>,
    out: &mut W,
) -> io::Result<()>
    ensures { Tells W.lines out.old out.new result
        (unread_lines verbosity name.now reason) }
{
    match reason {
        Some(reason) if verbosity.verbose => {
            write_not_had_because(verbosity, "read", name, reason, out)
        }
        _ => Ok(()),
    }
}

/// Writes the line that says why a session, counted from 1, could not be read on, if that is known.
pub fn write_read_failed<W: WriteLines>(
    session: usize,
    origin: &Origin,
    reason: Option<Reason>,
    out: &mut W,
) -> io::Result<()>
    ensures { Tells W.lines out.old out.new result
        (read_failed_lines session origin.now reason) }
{
    match reason {
        Some(reason) => write_read_failed_line(session, origin, reason, out),
        None => Ok(()),
    }
}

fn write_read_failed_line<W: WriteLines>(
    session: usize,
    origin: &Origin,
    reason: Reason,
    out: &mut W,
) -> io::Result<()>
    ensures { Tells W.lines out.old out.new result
        (read_failed_line session origin.now reason) }
{
    let fault = SessionFault::ReadFailed;
    write_session_start(session, origin, out)?;
    write_reason(fault.number(), fault.name(), reason.words(), out)
}

#[tactic(auto, unfolding(crate::specs::ReadFailures::reason_text))]
fn write_reason<W: WriteLines>(number: u8, name: &str, words: &str, out: &mut W) -> io::Result<()>
    ensures { Tells W.lines out.old out.new result
        (reason_text number name.now words.now) }
{
    writeln!(out, ": fault {number} {name}: {words}")
}
