//! The line of a session all of whose flows are untimed.

ghost use Rattle.report_times.specs.UntimedLines.{session_untimed, untimed_line, untimed_text};
ghost use Rattle.report_writing.specs.Writing.{Tells};

use flow_times::TimeElement;
use report_writing::{Origin, WriteLines, write_session_start};
use std::io;

/// Writes by which element the flows of a session say a time, if there is one, and the word of a plan that reads it.
pub fn write_untimed<W: WriteLines>(
    session: usize,
    origin: &Origin,
    untimed: Option<TimeElement>,
    out: &mut W,
) -> io::Result<()>
    ensures { Tells W.lines out.old out.new result
        (session_untimed session origin.now untimed) }
{
    match untimed {
        Some(element) => write_line(session, origin, element, out),
        None => Ok(()),
    }
}

fn write_line<W: WriteLines>(
    session: usize,
    origin: &Origin,
    element: TimeElement,
    out: &mut W,
) -> io::Result<()>
    ensures { Tells W.lines out.old out.new result
        (untimed_line session origin.now element) }
{
    write_session_start(session, origin, out)?;
    write_element(element.name(), out)
}

#[tactic(auto, unfolding(crate::specs::UntimedLines::untimed_text))]
fn write_element<W: WriteLines>(name: &str, out: &mut W) -> io::Result<()>
    ensures { Tells W.lines out.old out.new result (untimed_text name.now) }
{
    writeln!(
        out,
        ": all flows are untimed: {name} is read with times = \"all\""
    )
}
