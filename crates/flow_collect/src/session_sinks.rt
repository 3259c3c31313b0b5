//! The sinks of a session, one in front of the other: what they append, leave out and note.

ghost use Rattle.std.specs.Prelude.{◌≡◌, IfOk};
ghost use Rattle.flow_collect.specs.SessionSinks.{AreFirst, TellAtEnd};

use crate::collected::FilteredReport;
use crate::context_fields::ContextFields;
use crate::context_sink::ContextSink;
use crate::great_note::GreatNote;
use crate::note_sink::NoteSink;
use crate::rate_sink::{RateSink, first_notes};
use crate::session_context::SessionContext;
use exporter_options::ToldFields;
use flow_filter::{Filter, FilterSink};
use flow_times::TimeNotes;
use ipfix_session::FullReport;
use std::alloc::{AllocError, Global};

/// What the records of a session are put into, in front of a sink for those that count.
pub type SessionSinks<'a, K> = ContextSink<'a, FilterSink<'a, RateSink<'a, NoteSink<'a, K>>>>;

/// Those of a session in this context and under this filter.
pub fn first_sinks<'a, K: Drop>(
    alloc: Global,
    context: SessionContext<'a>,
    filter: Option<&'a Filter>,
    sink: K,
) -> Result<SessionSinks<'a, K>, AllocError>
    ensures { IfOk result (AreFirst context.entry filter.entry sink) }
{
    let fields = ContextFields::new(alloc, context)?;
    let told = ToldFields::new(alloc, context.options)?;
    let notes = first_notes(alloc, context.options.sampling)?;
    let times = NoteSink {
        notes: TimeNotes::new(context.times),
        great: GreatNote::new(context.great_counters),
        sink,
    };
    let rates = RateSink::new(context.estimates, notes, times);
    let counted = FilterSink::new(filter, rates);
    Ok(ContextSink::new(told, fields, counted))
}

/// What they tell of a session that ended with a report, and the sink behind them.
pub fn told_at_end<K>(
    alloc: Global,
    sinks: SessionSinks<K>,
    full: FullReport,
) -> (FilteredReport, K)
    ensures told { TellAtEnd sinks.entry full result.0 }
    ensures sink { sinks.entry.sink.sink.sink.sink ≡ result.1 }
{
    let ContextSink { told, sink, .. } = sinks;
    let FilterSink { filtered, sink, .. } = sink;
    let (sampling, times) = sink.finish(alloc, &told);
    let NoteSink { notes, great, sink } = times;
    let report = FilteredReport {
        full,
        filtered,
        sampling,
        times: notes.report(),
        is_great: great.is_great,
    };
    (report, sink)
}
