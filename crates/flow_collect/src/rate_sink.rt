//! A sink that notes at which rates the records are sampled that it puts into another.

ghost use Rattle.std.specs.Prelude.{◌≡◌, IfOk};
ghost use Rattle.flow_collect.specs.Rated.{Tells, notes_first};

use exporter_options::ToldFields;
use flow_estimates::{Estimates, RateNotes, SamplingReport, no_report, report_of};
use ipfix_message::DataRecord;
use ipfix_session::Sink;
use std::alloc::{AllocError, Global};

/// Puts each record into another sink, and notes at which rate it is sampled, if that is asked for.
#[derive(Drop)]
pub struct RateSink<'a, K> {
    estimates: Option<&'a Estimates>,
    notes: Option<RateNotes>,
    /// The sink that it puts them into.
    pub sink: K,
}

impl<'a, K> RateSink<'a, K> {
    /// A sink in front of another, which has noted this.
    pub fn new(estimates: Option<&'a Estimates>, notes: Option<RateNotes>, sink: K) -> Self
        ensures { (result.estimates ≡ estimates.entry) × (result.notes ≡ notes) × (result.sink ≡ sink) }
    {
        RateSink {
            estimates,
            notes,
            sink,
        }
    }

    /// What is told of what was noted, at the end of a session whose options records told this; and the other sink. The
    /// room for what was not noted is given back.
    #[tactic(auto, using(crate::proofs::Rated::told_same))]
    pub fn finish(self, alloc: Global, told: &ToldFields) -> (SamplingReport, K)
        ensures told { Tells told.now.known self.entry.notes result.0 }
        ensures sink { result.1 ≡ self.entry.sink }
    {
        let RateSink { notes, sink, .. } = self;
        let mut report = told_of(alloc, notes, told);
        report.rates.shrink_to_fit();
        (report, sink)
    }
}

// What is told of what was noted.
fn told_of(alloc: Global, notes: Option<RateNotes>, told: &ToldFields) -> SamplingReport
    ensures { Tells told.now.known notes result }
{
    match notes {
        Some(notes) => report_of(notes, told),
        None => no_report(alloc),
    }
}

/// Nothing noted, if it is asked for.
pub fn first_notes(alloc: Global, is_asked: bool) -> Result<Option<RateNotes>, AllocError>
    ensures { IfOk result (λ notes. notes ≡ notes_first is_asked) }
{
    if is_asked {
        Ok(Some(RateNotes::new(alloc)?))
    } else {
        Ok(None)
    }
}

impl<'a, K: Sink> Sink for RateSink<'a, K> {
    ghost use Rattle.flow_collect.specs.Rated.{rate_view};

    ghost seen = { rate_view K.seen };

    fn put(&mut self, item: DataRecord) -> Result<(), DataRecord> {
        if let Some(notes) = &mut self.notes {
            notes.note(self.estimates, &item);
        }
        self.sink.put(item)
    }
}
