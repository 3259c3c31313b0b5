//! The line of how many flows of a session have which element of a start.

ghost use Rattle.std.specs.Prelude.{◌≡◌};
ghost use Rattle.report_times.specs.StartsLines as lines;
ghost use Rattle.report_writing.specs.Writing.{Tells};

use flow_times::{StartCounts, TimeElement};
use report_writing::{Origin, WriteLines, write_session_start};
use std::io;

/// Writes how many flows of a session have which element of a start, if any has one.
pub fn write_starts<W: WriteLines>(
    number: usize,
    origin: &Origin,
    starts: &StartCounts,
    out: &mut W,
) -> io::Result<()>
    ensures { Tells W.lines out.old out.new result
        (lines.session_starts number origin.now starts.now) }
{
    if has_none(starts) {
        Ok(())
    } else {
        write_line(number, origin, starts, out)
    }
}

fn has_none(starts: &StartCounts) -> bool
    ensures { result ≡ lines.has_none starts.now }
{
    starts.milliseconds == 0
        && starts.seconds == 0
        && starts.microseconds == 0
        && starts.nanoseconds == 0
        && starts.delta_microseconds == 0
        && starts.sys_up_time == 0
        && starts.duration_milliseconds == 0
        && starts.duration_microseconds == 0
}

fn write_line<W: WriteLines>(
    session: usize,
    origin: &Origin,
    starts: &StartCounts,
    out: &mut W,
) -> io::Result<()>
    ensures { Tells W.lines out.old out.new result
        (lines.starts_line session origin.now starts.now) }
{
    write_session_start(session, origin, out)?;
    write!(out, ": times:")?;
    write_counts(starts, out)?;
    writeln!(out)
}

fn write_counts<W: WriteLines>(starts: &StartCounts, out: &mut W) -> io::Result<()>
    ensures { Tells W.lines out.old out.new result (lines.counts_text starts.now) }
{
    write_basic(starts, out)?;
    write_fine(starts, out)?;
    write_others(starts, out)
}

fn write_basic<W: WriteLines>(starts: &StartCounts, out: &mut W) -> io::Result<()>
    ensures { Tells W.lines out.old out.new result (lines.basic_text starts.now) }
{
    write_count(TimeElement::FlowStartMilliseconds, starts.milliseconds, out)?;
    write_count(TimeElement::FlowStartSeconds, starts.seconds, out)
}

fn write_fine<W: WriteLines>(starts: &StartCounts, out: &mut W) -> io::Result<()>
    ensures { Tells W.lines out.old out.new result (lines.fine_text starts.now) }
{
    write_count(TimeElement::FlowStartMicroseconds, starts.microseconds, out)?;
    write_count(TimeElement::FlowStartNanoseconds, starts.nanoseconds, out)?;
    write_count(
        TimeElement::FlowStartDeltaMicroseconds,
        starts.delta_microseconds,
        out,
    )
}

fn write_others<W: WriteLines>(starts: &StartCounts, out: &mut W) -> io::Result<()>
    ensures { Tells W.lines out.old out.new result (lines.others_text starts.now) }
{
    write_count(TimeElement::FlowStartSysUpTime, starts.sys_up_time, out)?;
    write_count(
        TimeElement::FlowDurationMilliseconds,
        starts.duration_milliseconds,
        out,
    )?;
    write_count(
        TimeElement::FlowDurationMicroseconds,
        starts.duration_microseconds,
        out,
    )
}

// How many flows have an element, if any has.
fn write_count<W: WriteLines>(element: TimeElement, flows: u64, out: &mut W) -> io::Result<()>
    ensures { Tells W.lines out.old out.new result
        (lines.if_counted element flows) }
{
    if flows == 0 {
        Ok(())
    } else {
        write_named(element.name(), flows, out)
    }
}

#[tactic(auto, unfolding(crate::specs::StartsLines::count_text))]
fn write_named<W: WriteLines>(name: &str, flows: u64, out: &mut W) -> io::Result<()>
    ensures { Tells W.lines out.old out.new result (lines.count_text name.now flows) }
{
    write!(out, " {name} {flows}")
}
