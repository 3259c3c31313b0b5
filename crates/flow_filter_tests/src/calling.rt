//! The caller that `CALLING.md` of `flow_filter` shows.

ghost use Rattle.std.specs.Prelude.{◌≡◌, ℕ, List, Some, IfOk};
ghost use Rattle.ipfix_session.specs.Given.{records_of};
ghost use Rattle.flow_filter.specs.Sinks.{counted, left_out};

use flow_filter::laws::counted_records_are_taken;
use flow_filter::{Filter, FilterSink};
use ipfix_message::DataRecord;
use ipfix_session::laws::{driven_is_given, no_fault_is_all};
use ipfix_session::{FromReader, READ_LIMIT, SessionFault, VecSink, drive};
use std::alloc::Global;
use std::io::Read;

/// What is counted of an input.
#[derive(Drop)]
pub struct Counted {
    /// The records that count, in their order.
    pub records: Vec<DataRecord>,
    /// How many others there are, up to `u64::MAX`.
    pub filtered: u64,
}

/// The data records of an input that a filter counts, all without one, and how many others there are.
pub fn counted_in<R: Read + Drop>(
    alloc: Global,
    filter: Option<&Filter>,
    input: R,
) -> Result<Counted, SessionFault>
    ensures records { IfOk result (λ r. (text : List ℕ) → R.remaining input ≡ Some text
        → r.records.items ≡ counted filter.entry (records_of text)) }
    ensures others { IfOk result (λ r. (text : List ℕ) → R.remaining input ≡ Some text
        → r.filtered ≡ left_out filter.entry (records_of text)) }
{
    driven_is_given::<FromReader<R>, FilterSink<VecSink>>();
    no_fault_is_all::<FromReader<R>>();
    counted_records_are_taken::<VecSink>();
    let mut source = FromReader::new(input);
    let mut sink = FilterSink::new(filter, VecSink::new(alloc));
    let report = drive(alloc, &mut source, &mut sink, READ_LIMIT);
    match report.fault {
        None => Ok(counted_by(sink)),
        Some(fault) => Err(fault),
    }
}

// What a sink behind a filter has kept.
fn counted_by(sink: FilterSink<VecSink>) -> Counted
    ensures records { result.records.items ≡ sink.entry.sink.records.items }
    ensures others { result.filtered ≡ sink.entry.filtered }
{
    let FilterSink {
        sink: kept,
        filtered,
        ..
    } = sink;
    Counted {
        records: kept.records,
        filtered,
    }
}
