//! Whether a record has times in milliseconds or seconds.

ghost use Rattle.std.specs.Prelude.{◌≡◌, is_some};
ghost use Rattle.ipfix_elements.specs.Elements.{iana, kind_of};
ghost use Rattle.flow_table.specs.Reading.{basic_time, time_of as time_by};
ghost use Rattle.flow_times.specs.Timed as timed;

use flow_table::TIME_LIMIT;
use ipfix_elements::{Kind, iana, read_number};
use ipfix_message::DataRecord;
use ipfix_wire::ElementId;

/// Whether a record has a start and an end in milliseconds or seconds (RFC 7011, sections 6.1.7 and 6.1.8).
#[tactic(auto, unfolding(ipfix_elements::specs::Elements::elements))]
pub fn is_timed(item: &DataRecord) -> bool
    ensures { result ≡ timed.is_timed item.now }
{
    has_time(
        item,
        iana::FLOW_START_MILLISECONDS,
        iana::FLOW_START_SECONDS,
    ) && has_time(item, iana::FLOW_END_MILLISECONDS, iana::FLOW_END_SECONDS)
}

// Whether a record has a time by one of two elements: in milliseconds, or in seconds.
fn has_time(item: &DataRecord, millis: u16, seconds: u16) -> bool
    requires millis { kind_of (iana millis) ≡ Kind.Millis }
    requires seconds { kind_of (iana seconds) ≡ Kind.Seconds }
    ensures { result ≡ is_some (basic_time millis seconds item.now) }
{
    time_of(item, millis, Kind::Millis, 1).is_some()
        || time_of(item, seconds, Kind::Seconds, 1000).is_some()
}

// The time in the first field of an element, whose unit is so many milliseconds.
fn time_of(item: &DataRecord, number: u16, kind: Kind, unit: u64) -> Option<u64>
    requires { kind_of (iana number) ≡ kind }
    ensures { result ≡ time_by (iana number) unit item.now }
{
    let octets = item.fields.find(ElementId::iana(number))?;
    let time = read_number(kind, octets)?.checked_mul(unit)?;
    if time < TIME_LIMIT { Some(time) } else { None }
}
