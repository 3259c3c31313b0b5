//! Recording a session: a source is read piece by piece, and its messages go to files.

ghost use Rattle.std.specs.Prelude.{◌≡◌, ◌<◌, [], ℕ, length, OnOk, IfErr};
ghost use Rattle.ipfix_session.specs.declared.driver.TheConstants.{READ_SIZE};
ghost use Rattle.recording_files.specs.Recorders.{Counted};
ghost use Rattle.recording_files.specs.Gathering.{IsFresh};
ghost use Rattle.recording_files.specs.Files.{IsEmpty};
ghost use Rattle.recording_files.specs.Sessions.{RecordsTo, RecordsSession};

use crate::file_series::FileSeries;
use crate::gathering::Gathering;
use crate::period_clock::PeriodClock;
use crate::reads::take_read;
use crate::record_fault::RecordFault;
use crate::recorded_session::RecordedSession;
use ipfix_message::MessageFault;
use ipfix_session::{READ_SIZE, ReadError, SessionLimits, Source};
use std::alloc::Global;

// The answer at the end of the source.
fn answer_at_end(buffer: &[u8]) -> Result<(), RecordFault>
    ensures whole { OnOk result (buffer.now ≡ []) }
    ensures cut { IfErr result (λ fault. (fault ≡ RecordFault.Truncated) × (0 < length buffer.now)) }
{
    if buffer.is_empty() {
        Ok(())
    } else {
        Err(RecordFault::Truncated)
    }
}

/// Records the session of a source to its end or first fault, within these limits. Each message
/// stands in a file as it came, after it was decoded. In a file, before the first message of a domain
/// that an earlier file has, stands the domain's preamble: the templates in force there, so that each
/// file can be read by itself. What the whole messages of a read have is written at once.
///
/// After each read the clock is asked once. If it tells that the period is over, the file of the messages
/// that were whole before that read is finished with its report, unless there are none, and the next file
/// begins. An interrupted read is tried again, and counts: a source with a time limit answers
/// `ReadError::Interrupted` when it has passed, so that a silent session's file is finished too. The
/// last file is left unfinished, and may be empty.
///
/// The fault is that of the first malformed message, or `TooManyFields` of the first after which the templates
/// would count more than `limits.templates`, which isn't recorded: whatever is sent, those that are kept count no
/// more. Else `ReadFailed` is a read that failed, `TooManyReads` if `limits.reads` reads haven't shown the end,
/// `Truncated` if the octets end within a message. `NotWritten` is a call of the files that failed: the messages of
/// earlier reads stand whole, and after them at most the first octets of what the read's messages have.
/// `OutOfMemory` may come in place of any other.
///
/// The reports are of the messages that stand whole, as [`drive_in_full`](ipfix_session::drive_in_full)
/// tells them. If the files failed when one was to be finished, the last report is of that one.
pub fn record<S: Source, F: FileSeries, C: PeriodClock>(
    alloc: Global,
    source: &mut S,
    files: &mut F,
    clock: &mut C,
    limits: SessionLimits,
) -> RecordedSession
    ensures { IsEmpty (F.seen files.old).contents
        → RecordsSession S.seen F.seen C.asked limits source.old source.new
        files.old files.new clock.old clock.new result }
{
    let mut gathering = Gathering::new(alloc, limits.templates);
    let ended = record_gathering(alloc, &mut gathering, source, files, clock, limits);
    gathering.into_session(ended)
}

// Gathers the session of a source, and writes it.
fn record_gathering<S: Source, F: FileSeries, C: PeriodClock>(
    alloc: Global,
    gathering: &mut Gathering,
    source: &mut S,
    files: &mut F,
    clock: &mut C,
    limits: SessionLimits,
) -> Result<(), RecordFault>
    ensures { IsFresh limits.templates gathering.old
        → IsEmpty (F.seen files.old).contents
        → RecordsTo S.seen F.seen C.asked limits source.old source.new
        files.old files.new clock.old clock.new result (Counted gathering.new.counts.told) }
{
    match vec![in alloc; 0; READ_SIZE] {
        Ok(mut buffer) => record_through(
            alloc,
            gathering,
            source,
            files,
            clock,
            limits,
            &mut buffer,
        ),
        Err(_) => Err(RecordFault::Message(MessageFault::OutOfMemory)),
    }
}

// Does the same through this buffer.
fn record_through<S: Source, F: FileSeries, C: PeriodClock>(
    alloc: Global,
    gathering: &mut Gathering,
    source: &mut S,
    files: &mut F,
    clock: &mut C,
    limits: SessionLimits,
    buffer: &mut [u8],
) -> Result<(), RecordFault>
    requires { length buffer.old ≡ READ_SIZE }
    ensures { IsFresh limits.templates gathering.old
        → IsEmpty (F.seen files.old).contents
        → RecordsTo S.seen F.seen C.asked limits source.old source.new
        files.old files.new clock.old clock.new result (Counted gathering.new.counts.told) }
{
    let mut begun = Vec::new(alloc);
    for _ in 0..limits.reads {
        match source.read(buffer) {
            Ok(0) => return answer_at_end(&begun),
            Ok(count) => {
                let is_over = clock.is_over();
                let piece = &buffer[..count];
                if let Err(fault) = take_read(alloc, gathering, &mut begun, piece, is_over, files) {
                    return Err(fault);
                }
            }
            Err(ReadError::Interrupted) => {
                let is_over = clock.is_over();
                if let Err(fault) = take_read(alloc, gathering, &mut begun, &[], is_over, files) {
                    return Err(fault);
                }
            }
            Err(ReadError::Failed) => return Err(RecordFault::ReadFailed),
        }
    }
    Err(RecordFault::TooManyReads)
}
