//! Whether a record has a counter above 2^63, so that two of them are too large a sum.

ghost use Rattle.std.specs.Prelude.{◌≡◌};
ghost use Rattle.flow_collect.specs.Great.{great_first, great_next};

use flow_table::has_great_counter;
use ipfix_message::DataRecord;
use ipfix_wire::ElementId;

/// Whether a record so far had a counter above 2^63.
#[derive(Clone, Copy)]
pub struct GreatNote<'a> {
    /// The counters that are looked at, if some are.
    pub counters: Option<&'a [ElementId]>,
    /// Whether a record had one of them.
    pub is_great: bool,
}

impl<'a> GreatNote<'a> {
    /// Before the first record.
    pub fn new(counters: Option<&'a [ElementId]>) -> Self
        ensures { result ≡ great_first counters.entry }
    {
        GreatNote {
            counters,
            is_great: false,
        }
    }

    /// Notes a record.
    pub fn note(&mut self, data_record: &DataRecord)
        ensures { self.new ≡ great_next self.old data_record.now }
    {
        if let Some(counters) = self.counters {
            self.is_great = self.is_great || has_great_counter(counters, data_record);
        }
    }
}
