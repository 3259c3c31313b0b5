//! Data records read under a plan (RFC 7015, section 5).

ghost use Rattle.std.specs.Prelude.{◌≡◌, ◌≤◌, OnOk, IfOk, length};
ghost use Rattle.std.specs.List.{list_any};
ghost use Rattle.flow_table.specs.Reading.{counters_of, is_great, number_of};
ghost use Rattle.flow_table.specs.Readings.{Notes, ReadsAs};

use crate::flow::Flow;
use crate::key_words::read_key;
use crate::left_out::LeftOut;
use crate::plan::{MAX_COUNTERS, Plan};
use crate::sharing::covered;
use crate::span::Span;
use crate::times::{end_of, start_of};
use ipfix_elements::{Kind, Width, read_number};
use ipfix_message::DataRecord;
use ipfix_wire::ElementId;
use std::alloc::AllocError;

/// The kind of all counters, whatever files say: numbers of up to 8 octets (RFC 7011, section 6.2).
const COUNTER_KIND: Kind = Kind::Unsigned(Width::Eight);

/// Two counters above it are too large a sum.
const GREAT: u64 = 1 << 63;

/// A data record as a plan sees it.
#[derive(Clone, Copy)]
pub(crate) enum Reading {
    /// It is left out of the table, for this reason.
    Left(LeftOut),
    /// It is this flow.
    Used(Flow),
}

/// Reads a record, and leaves the words of a used one's key in `words`. A guess of a flow's first interval
/// is tried first. Nothing is allocated unless `words` has to grow.
pub(crate) fn read(
    plan: &Plan,
    data_record: &DataRecord,
    guess: u64,
    words: &mut Vec<u64>,
) -> Result<Reading, AllocError>
    ensures { IfOk result (ReadsAs plan.now data_record.now words.new.items) }
{
    if data_record.scope > 0 {
        return Ok(Reading::Left(LeftOut::Options));
    }
    let times = plan.choices().times;
    let Some(start) = start_of(times, data_record) else {
        return Ok(Reading::Left(LeftOut::WithoutStart));
    };
    let Some(end) = end_of(times, data_record) else {
        return Ok(Reading::Left(LeftOut::WithoutEnd));
    };
    if end < start {
        return Ok(Reading::Left(LeftOut::Backward));
    }
    if let Some(place) = read_key(plan.keys(), plan.kinds(), data_record, words)? {
        return Ok(Reading::Left(LeftOut::WithoutKey(place)));
    }
    let span = Span { start, end };
    let (first, count) = covered(plan, span, guess);
    if u64::from(plan.max_spread()) < count {
        return Ok(Reading::Left(LeftOut::TooLong));
    }
    Ok(Reading::Used(Flow { span, first, count }))
}

// The counter in the first field of an element, if that isn't missing and is a number.
fn counter(data_record: &DataRecord, element: ElementId) -> Option<u64>
    ensures { result ≡ number_of element data_record.now }
{
    let octets = data_record.fields.find(element)?;
    read_number(COUNTER_KIND, octets)
}

/// Whether one of these counters of a record is above 2^63.
pub fn has_great_counter(elements: &[ElementId], data_record: &DataRecord) -> bool
    ensures { result ≡ list_any (is_great data_record.now) elements.now }
{
    elements.iter().any(|element| counter(data_record, *element).unwrap_or(0) > GREAT)
}

/// Leaves the counters of a record in `counters`, and counts those that it lacks in `missing`, where
/// what would be 2^64 or more stays below it.
pub(crate) fn read_counters(
    elements: &[ElementId],
    data_record: &DataRecord,
    counters: &mut Vec<u64>,
    missing: &mut [u64; MAX_COUNTERS],
) -> Result<(), AllocError>
    requires few { length elements.now ≤ MAX_COUNTERS }
    ensures counters { OnOk result (counters.new.items ≡ counters_of elements.now data_record.now) }
    ensures missing { OnOk result (Notes missing.old elements.now data_record.now missing.new) }
{
    counters.clear();
    for element in elements {
        let counter = counter(data_record, *element);
        if counter.is_none() {
            let place = counters.len();
            missing[place] = missing[place].saturating_add(1);
        }
        counters.push(counter.unwrap_or(0))?;
    }
    Ok(())
}
