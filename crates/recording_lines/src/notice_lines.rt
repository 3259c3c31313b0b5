//! The lines of peers that have no session, and of threads.

ghost use Rattle.report_writing.specs.Writing.{Tells};
ghost use Rattle.recording_lines.specs.RecordLines.{not_accepted_line, refused_line, threads_line};

use report_writing::WriteLines;
use std::io;
use std::net::SocketAddr;

/// Writes how many peers were refused, and which was the last.
#[tactic(auto, unfolding(crate::specs::RecordLines::refused_line))]
pub fn write_refused<W: WriteLines>(count: u64, last: SocketAddr, out: &mut W) -> io::Result<()>
    ensures { Tells W.lines out.old out.new result
        (refused_line count last) }
{
    writeln!(out, "collectd: refused {count} connections, last {last}")
}

/// Writes how often no connection could be accepted.
#[tactic(auto, unfolding(crate::specs::RecordLines::not_accepted_line))]
pub fn write_not_accepted<W: WriteLines>(count: u64, out: &mut W) -> io::Result<()>
    ensures { Tells W.lines out.old out.new result
        (not_accepted_line count) }
{
    writeln!(out, "collectd: record: accept failed {count} times")
}

/// Writes how many threads could be started, of how many.
#[tactic(auto, unfolding(crate::specs::RecordLines::threads_line))]
pub fn write_threads<W: WriteLines>(started: usize, threads: usize, out: &mut W) -> io::Result<()>
    ensures { Tells W.lines out.old out.new result
        (threads_line started threads) }
{
    writeln!(out, "collectd: record: threads {started} of {threads}")
}
