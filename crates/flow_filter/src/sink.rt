//! A sink that leaves out what a filter does not let pass.

ghost use Rattle.std.specs.Prelude.{◌≡◌};
ghost use Rattle.flow_filter.specs.Sinks.{is_let_by as is_let_by_value};

use crate::filter::Filter;
use ipfix_message::DataRecord;
use ipfix_session::Sink;

/// Puts the records that a filter counts into another sink. The others it takes and leaves out. Without a filter it
/// puts all of them.
#[derive(Drop)]
pub struct FilterSink<'a, K> {
    pub filter: Option<&'a Filter>,
    /// How many records were left out. The count stops at `u64::MAX`.
    pub filtered: u64,
    /// The sink that the other records were put into.
    pub sink: K,
}

impl<'a, K> FilterSink<'a, K> {
    /// A sink in front of another, which has left out nothing.
    pub fn new(filter: Option<&'a Filter>, sink: K) -> Self
        ensures { (result.filter ≡ filter.entry) × (result.filtered ≡ 0) × (result.sink ≡ sink) }
    {
        FilterSink {
            filter,
            filtered: 0,
            sink,
        }
    }
}

impl<'a, K: Sink> Sink for FilterSink<'a, K> {
    ghost use Rattle.flow_filter.specs.Sinks.{filter_view};

    ghost seen = { filter_view K.seen };

    /// Puts a record that is counted into the other sink, and counts one that is not. It comes back only
    /// from the other sink.
    fn put(&mut self, item: DataRecord) -> Result<(), DataRecord> {
        if is_let_by(self.filter, &item) {
            return self.sink.put(item);
        }
        self.filtered = self.filtered.saturating_add(1);
        Ok(())
    }
}

// Whether a record is put: a filter counts it, or there is none.
fn is_let_by(filter: Option<&Filter>, item: &DataRecord) -> bool
    ensures { result ≡ is_let_by_value filter.entry item.now }
{
    match filter {
        Some(filter) => filter.counts(item),
        None => true,
    }
}
