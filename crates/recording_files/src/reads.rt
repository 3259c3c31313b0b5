//! What a read does to the files of a session.

ghost use Rattle.std.specs.Prelude.{◌≡◌, ◌++◌, ℕ, List, OnOk, OnErr, IfErr};
ghost use Rattle.ipfix_session.specs.Buffers.{IsRest};
ghost use Rattle.ipfix_session.specs.MessageSinks.{Reads, TookFirst};
ghost use Rattle.recording_files.specs.Recorders.{KeepsWithin};
ghost use Rattle.recording_files.specs.Counting.{CountsWaiting};
ghost use Rattle.recording_files.specs.Files.{Appends};
ghost use Rattle.recording_files.specs.Sessions.{Progress};
ghost use Rattle.recording_files.specs.Gathering.{BeforeRead, gathering_view};
ghost use Rattle.recording_files.specs.Between.{HasRecorded, StopsRecording, GoesOn, turned_if, with_read};

use crate::file_series::{FileSeries, NotWritten};
use crate::gathering::Gathering;
use crate::record_fault::RecordFault;
use ipfix_session::{SessionFault, read_on};
use std::alloc::Global;

// Begins the next file if the period is over and this one has a message.
fn turn_if_over<F: FileSeries>(
    is_over: bool,
    gathering: &mut Gathering,
    files: &mut F,
) -> Result<(), RecordFault>
    ensures turned { (p : Progress) (left : List ℕ)
        → HasRecorded p (F.seen files.old) gathering.old left
        → OnOk result (HasRecorded (turned_if is_over p) (F.seen files.new) gathering.new left) }
    ensures stops { (p : Progress) (left piece : List ℕ)
        → HasRecorded p (F.seen files.old) gathering.old left
        → IfErr result (λ fault. StopsRecording fault (with_read piece (turned_if is_over p))
        (F.seen files.new) gathering.new) }
{
    if !is_over {
        return Ok(());
    }
    if !gathering.recorder.has_begun() {
        return Ok(());
    }
    let report = gathering.counts.file_report();
    match files.turn(&report) {
        Ok(()) => {
            gathering.recorder.turn();
            gathering.counts.turn();
            Ok(())
        }
        Err(_) => Err(RecordFault::NotWritten),
    }
}

// Writes what was gathered, and counts it then.
fn write_gathered<F: FileSeries>(gathering: &mut Gathering, files: &mut F) -> Result<(), NotWritten>
    ensures recorder { gathering.new.recorder ≡ gathering.old.recorder }
    ensures appends { (b : BeforeRead) (text : List ℕ)
        → TookFirst gathering_view b text gathering.old tt
        → Appends result gathering.old.out.items (F.seen files.old) (F.seen files.new) }
    ensures counted { OnOk result (CountsWaiting gathering.old.counts gathering.new.counts) }
    ensures err { OnErr result (gathering.new.counts.told ≡ gathering.old.counts.told) }
{
    if gathering.counts.is_settled() {
        return Ok(());
    }
    files.append(&gathering.out)?;
    gathering.counts.count_waiting();
    Ok(())
}

// Gathers what a read gave after the buffer, and nothing of reads before it.
fn gather(
    alloc: Global,
    gathering: &mut Gathering,
    buffer: &mut Vec<u8>,
    piece: &[u8],
) -> Result<(), SessionFault>
    ensures { (b : BeforeRead) → IsRest buffer.old.items
        → KeepsWithin b.limit gathering.old.recorder b.before b.here
        → gathering.old.counts.told ≡ b.told
        → Reads gathering_view b result (buffer.old.items ++ piece.now) gathering.new tt
        buffer.new.items }
{
    gathering.begin_read();
    read_on(alloc, gathering, buffer, piece, &mut ())
}

/// Takes what a read gave, and whether the clock told after it that the period is over.
pub fn take_read<F: FileSeries>(
    alloc: Global,
    gathering: &mut Gathering,
    buffer: &mut Vec<u8>,
    piece: &[u8],
    is_over: bool,
    files: &mut F,
) -> Result<(), RecordFault>
    ensures { (p : Progress) → HasRecorded p (F.seen files.old) gathering.old buffer.old.items
        → GoesOn result (with_read piece.now (turned_if is_over p)) (F.seen files.new)
        gathering.new buffer.new.items }
{
    turn_if_over(is_over, gathering, files)?;
    let taken = gather(alloc, gathering, buffer, piece);
    write_gathered(gathering, files)?;
    Ok(taken?)
}
