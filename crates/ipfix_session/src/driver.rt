//! Driving a session: a source is read piece by piece, and its octets are fed.

ghost use Rattle.std.specs.Prelude.{ℕ, ◌<◌, ◌≤◌, length};
ghost use Rattle.ipfix_session.specs.Drives.{Drives, DrivesInFull};
ghost use Rattle.ipfix_session.specs.declared.driver.TheConstants.{READ_SIZE};

use crate::fault::SessionFault;
use crate::report::{FullReport, SessionReport};
use crate::session::Session;
use crate::session_limits::SessionLimits;
use crate::sink::Sink;
use crate::source::{ReadError, Source};
use ipfix_message::MessageFault;
use std::alloc::Global;

/// The most octets of a read.
pub const READ_SIZE: usize = 65536;

/// The most reads of a session.
pub const READ_LIMIT: u64 = 1 << 40;

/// Reads a source to its end and puts the records of its octets, in at most `limit` reads. The report
/// says what its messages gave, and the fault that ended them.
///
/// It stops reading at the first fault of a message that is whole, or of a header that is whole. At
/// most 65,535 octets after the fault are read. Else `ReadFailed` is a read that failed, also the last
/// that was allowed; `TooManyReads` if `limit` reads haven't shown the end; `Truncated` if the octets
/// end within a message. An interrupted read is tried again, and counts. `SinkClosed` is a record that
/// the sink gave back. `OutOfMemory` may come in place of any other.
pub fn drive<S: Source, K: Sink>(
    alloc: Global,
    source: &mut S,
    sink: &mut K,
    limit: u64,
) -> SessionReport
    ensures { Drives S.seen K.seen limit source.old source.new sink.old sink.new result }
{
    let limits = SessionLimits {
        reads: limit,
        templates: None,
    };
    drive_in_full(alloc, source, sink, limits).report
}

/// Does what [`drive`] does within limits, and reports in full: with the balances of the domains, and the place of
/// the message that ended the session. A message that leaves more templates in force than the limit allows ends it
/// with `TooManyFields`.
pub fn drive_in_full<S: Source, K: Sink>(
    alloc: Global,
    source: &mut S,
    sink: &mut K,
    limits: SessionLimits,
) -> FullReport
    ensures { DrivesInFull S.seen K.seen limits source.old source.new sink.old sink.new
        result }
{
    match vec![in alloc; 0; READ_SIZE] {
        Ok(mut buffer) => drive_through(alloc, source, sink, limits, &mut buffer),
        Err(_) => {
            Session::with_limit(alloc, limits.templates).finish_after(SessionFault::Message(
                MessageFault::OutOfMemory,
            ))
        }
    }
}

// Does the same through this buffer.
fn drive_through<S: Source, K: Sink>(
    alloc: Global,
    source: &mut S,
    sink: &mut K,
    limits: SessionLimits,
    buffer: &mut [u8],
) -> FullReport
    requires some { 0 < length buffer.old }
    requires room { length buffer.old ≤ READ_SIZE }
    ensures { DrivesInFull S.seen K.seen limits source.old source.new sink.old sink.new
        result }
{
    let mut session = Session::with_limit(alloc, limits.templates);
    for _ in 0..limits.reads {
        match source.read(buffer) {
            Ok(0) => return session.finish_in_full(),
            Ok(count) => {
                if let Err(fault) = session.feed(alloc, &buffer[..count], sink) {
                    return session.finish_after(fault);
                }
            }
            Err(ReadError::Interrupted) => {}
            Err(ReadError::Failed) => return session.finish_after(SessionFault::ReadFailed),
        }
    }
    session.finish_after(SessionFault::TooManyReads)
}
