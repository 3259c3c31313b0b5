//! One session: it is recorded to its end, and its lines are written.

ghost use Rattle.std.specs.Prelude.{◌≡◌};
ghost use Rattle.recording_files.specs.Files.{IsEmpty};
ghost use Rattle.report_writing.specs.Writing.{Tells};
ghost use Rattle.recording_connections.specs.Serving.{all_lines, end_lines, fault_line, fault_lines, finish_lines, IsRecorded, IsServed, more_lines, not_written_line, read_failure as failure_by, read_lines, reason_line, session_lines, silence_lines, views};

use crate::connection::Connection;
use crate::place::{Recording, RecordingFiles, SessionPlace};
use crate::shared_counts::SessionNumber;
use ipfix_message::MessageFault;
use ipfix_session::{SessionLimits, Source};
use recording_files::{NotWritten, PeriodClock, RecordFault, RecordedSession, record};
use recording_folder::FilesEnd;
use recording_lines::{write_peer_ended, write_peer_fault, write_peer_losses, write_peer_reason};
use report_writing::{Reason, Verbosity, WriteLines};
use std::alloc::Global;
use std::io::{self, ErrorKind};
use std::net::SocketAddr;

/// Records the session of a connection, whose number is this, within these limits to its end or first fault, finishes its last
/// file, and writes its lines: more, if `verbosity` asks for it. If there is no memory for its files, that is its fault, and
/// nothing of it is read.
pub fn record_connection<
    S: Source,
    F: RecordingFiles,
    C: PeriodClock + Drop,
    P: SessionPlace<F, C>,
    W: WriteLines,
>(
    alloc: Global,
    connection: &mut Connection<S>,
    number: SessionNumber,
    limits: SessionLimits,
    place: &P,
    verbosity: Verbosity,
    out: &mut W,
) -> io::Result<()>
    ensures { IsServed (views S.seen S.failure F.seen C.asked F.finishes) (P.makes place.now)
        connection.old connection.new number.number limits verbosity
        (Tells W.lines out.old out.new result) }
{
    let peer = connection.peer;
    match place.session(alloc, peer, number.get()) {
        Ok(recording) => {
            let source = &mut connection.source;
            record_source(alloc, source, recording, limits, verbosity, peer, out)
        }
        Err(_) => {
            let fault = RecordFault::Message(MessageFault::OutOfMemory);
            write_fault(peer, fault, out)
        }
    }
}

// Records the session of a source, finishes its last file, and writes its lines.
fn record_source<S: Source, F: RecordingFiles, C: PeriodClock + Drop, W: WriteLines>(
    alloc: Global,
    source: &mut S,
    recording: Recording<F, C>,
    limits: SessionLimits,
    verbosity: Verbosity,
    peer: SocketAddr,
    out: &mut W,
) -> io::Result<()>
    requires { IsEmpty (F.seen recording.files).contents }
    ensures { IsRecorded (views S.seen S.failure F.seen C.asked F.finishes) source.old source.new
        recording limits verbosity peer (Tells W.lines out.old out.new result) }
{
    let Recording {
        mut files,
        mut clock,
    } = recording;
    let session = record(alloc, source, &mut files, &mut clock, limits);
    let end = files.finish(&session.last);
    let failure = read_failure(session.ended, source.failure());
    write_connection(verbosity, peer, failure, &session, end, out)
}

// What the read that failed was answered, if it ended the session and that is known.
fn read_failure(ended: Result<(), RecordFault>, failure: Option<ErrorKind>) -> Option<ErrorKind>
    ensures { result ≡ failure_by ended failure }
{
    match ended {
        Err(RecordFault::ReadFailed) => failure,
        _ => None,
    }
}

// Writes that a connection was silent, if it was, and the rest.
fn write_connection<W: WriteLines>(
    verbosity: Verbosity,
    peer: SocketAddr,
    failure: Option<ErrorKind>,
    session: &RecordedSession,
    end: FilesEnd,
    out: &mut W,
) -> io::Result<()>
    ensures { Tells W.lines out.old out.new result
        (all_lines verbosity peer failure session.now end) }
{
    write_silence(peer, failure, out)?;
    write_lines(verbosity, peer, failure, session, end, out)
}

fn write_silence<W: WriteLines>(
    peer: SocketAddr,
    failure: Option<ErrorKind>,
    out: &mut W,
) -> io::Result<()>
    ensures { Tells W.lines out.old out.new result (silence_lines peer failure) }
{
    match failure {
        Some(ErrorKind::WouldBlock) => write_peer_ended(peer, "idle", out),
        _ => Ok(()),
    }
}

// Writes the lines of its session, and why it could not be read on.
fn write_lines<W: WriteLines>(
    verbosity: Verbosity,
    peer: SocketAddr,
    failure: Option<ErrorKind>,
    session: &RecordedSession,
    end: FilesEnd,
    out: &mut W,
) -> io::Result<()>
    ensures { Tells W.lines out.old out.new result
        (more_lines verbosity peer failure session.now end) }
{
    write_session(peer, session, end, out)?;
    write_unread(verbosity, peer, failure, out)
}

// Writes why a connection could not be read on, if that is known and more is asked for.
fn write_unread<W: WriteLines>(
    verbosity: Verbosity,
    peer: SocketAddr,
    failure: Option<ErrorKind>,
    out: &mut W,
) -> io::Result<()>
    ensures { Tells W.lines out.old out.new result (read_lines verbosity peer failure) }
{
    match failure {
        Some(kind) if verbosity.verbose => {
            write_reason(peer, RecordFault::ReadFailed, Reason::by_kind(kind), out)
        }
        _ => Ok(()),
    }
}

/// Writes what the sequence numbers of a session that has ended say, and its fault; and that its last file
/// could not be finished, if that is not its fault already.
pub fn write_session<W: WriteLines>(
    peer: SocketAddr,
    session: &RecordedSession,
    end: FilesEnd,
    out: &mut W,
) -> io::Result<()>
    ensures { Tells W.lines out.old out.new result (session_lines peer session.now end) }
{
    write_peer_losses(peer, &session.report.report.domains, out)?;
    write_end(peer, session.ended, end, out)
}

// Writes why a session ended.
fn write_end<W: WriteLines>(
    peer: SocketAddr,
    ended: Result<(), RecordFault>,
    end: FilesEnd,
    out: &mut W,
) -> io::Result<()>
    ensures { Tells W.lines out.old out.new result (end_lines peer ended end) }
{
    match ended {
        Ok(()) => write_finish(peer, end.reason, end.finished, out),
        Err(fault) => write_faults(peer, fault, end, out),
    }
}

// Writes a session's fault, and that its last file could not be finished, if that is not the fault.
fn write_faults<W: WriteLines>(
    peer: SocketAddr,
    fault: RecordFault,
    end: FilesEnd,
    out: &mut W,
) -> io::Result<()>
    ensures { Tells W.lines out.old out.new result (fault_lines peer fault end) }
{
    match fault {
        RecordFault::NotWritten => write_not_written(peer, end.reason, out),
        _ => {
            write_fault(peer, fault, out)?;
            write_finish(peer, end.reason, end.finished, out)
        }
    }
}

// Writes that the last file could not be finished, if that is so.
fn write_finish<W: WriteLines>(
    peer: SocketAddr,
    reason: Option<Reason>,
    finished: Result<(), NotWritten>,
    out: &mut W,
) -> io::Result<()>
    ensures { Tells W.lines out.old out.new result (finish_lines peer reason finished) }
{
    match finished {
        Ok(()) => Ok(()),
        Err(_) => write_not_written(peer, reason, out),
    }
}

// Writes that a file was not written or finished, and why, if that is known.
fn write_not_written<W: WriteLines>(
    peer: SocketAddr,
    reason: Option<Reason>,
    out: &mut W,
) -> io::Result<()>
    ensures { Tells W.lines out.old out.new result (not_written_line peer reason) }
{
    match reason {
        Some(reason) => write_reason(peer, RecordFault::NotWritten, reason, out),
        None => write_fault(peer, RecordFault::NotWritten, out),
    }
}

fn write_fault<W: WriteLines>(peer: SocketAddr, fault: RecordFault, out: &mut W) -> io::Result<()>
    ensures { Tells W.lines out.old out.new result (fault_line peer fault) }
{
    write_peer_fault(peer, fault.number(), fault.name(), out)
}

fn write_reason<W: WriteLines>(
    peer: SocketAddr,
    fault: RecordFault,
    reason: Reason,
    out: &mut W,
) -> io::Result<()>
    ensures { Tells W.lines out.old out.new result (reason_line peer fault reason) }
{
    write_peer_reason(peer, fault.number(), fault.name(), reason.words(), out)
}
