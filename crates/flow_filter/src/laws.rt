//! Laws of filters: functions with no body, whose contracts are the laws.

ghost use Rattle.flow_filter.specs.Sinks.{CountsOthers, PutsCounted};
ghost use Rattle.flow_filter.specs.declared.sink.FilterSink.{FilterSink};

use ipfix_session::Sink;

/// Of the records that a sink behind a filter takes, the sink in it takes those that are counted, each once
/// and in their order; and the others are counted as left out, from none on.
pub fn counted_records_are_taken<K: Sink>()
    ensures taken { (before after : FilterSink K) → PutsCounted K.seen before after }
    ensures filtered { (before after : FilterSink K) → CountsOthers K.seen before after }
{}
