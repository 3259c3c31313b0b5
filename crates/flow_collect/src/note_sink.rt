//! A sink that notes what is told of the records that it puts into another: their times, and great counters.

use crate::great_note::GreatNote;
use flow_times::TimeNotes;
use ipfix_message::DataRecord;
use ipfix_session::Sink;

/// Puts each record into another sink, and notes its times and whether it has a great counter.
#[derive(Drop)]
pub struct NoteSink<'a, K> {
    /// What is noted of the times of the records so far.
    pub notes: TimeNotes,
    /// Whether one of them has a great counter.
    pub great: GreatNote<'a>,
    /// The sink that it puts them into.
    pub sink: K,
}

impl<'a, K: Sink> Sink for NoteSink<'a, K> {
    ghost use Rattle.flow_collect.specs.Timed.{time_view};

    ghost seen = { time_view K.seen };

    fn put(&mut self, item: DataRecord) -> Result<(), DataRecord> {
        self.notes.note(&item);
        self.great.note(&item);
        self.sink.put(item)
    }
}
