//! A caller of `record`, at types in memory.

ghost use Rattle.std.specs.Prelude.{◌≡◌, ◌<◌, ◌++◌, ◌∷◌, [], Ok, filter, flat_map, map};
ghost use Rattle.ipfix_session.specs.Given.{records_of};
ghost use Rattle.recording_files.specs.Faithful.{is_flow};

use ipfix_session::SessionLimits;
use recording_files::laws::{flow_records_are_those_of_the_text, recorded_to_the_end};
use recording_files::{MemoryFiles, RecordedSession, ScriptClock, TickingSource, record};
use std::alloc::Global;

/// Records a text in memory, in pieces of at most `piece` octets, with an interrupted read after each.
/// After each read the clock gives the next of the answers. If the recording ends without a fault, the
/// files one after another give all flow records of the text.
pub fn record_in_memory(
    alloc: Global,
    text: Vec<u8>,
    piece: usize,
    room: usize,
    answers: Vec<bool>,
) -> (MemoryFiles, RecordedSession)
    requires { 0 < piece }
    ensures { result.1.ended ≡ Ok tt → filter is_flow (flat_map records_of
        (map (λ v. v.items) result.0.finished.items ++ result.0.unfinished.items ∷ []))
        ≡ filter is_flow (records_of text.items) }
{
    recorded_to_the_end::<TickingSource, MemoryFiles, ScriptClock>();
    flow_records_are_those_of_the_text();
    let mut source = TickingSource::new(text, piece);
    let mut files = MemoryFiles::new(alloc, room);
    let mut clock = ScriptClock::new(answers);
    let limits = SessionLimits {
        reads: u64::MAX,
        templates: None,
    };
    let session = record(alloc, &mut source, &mut files, &mut clock, limits);
    (files, session)
}
