//! Elements that say the times of flows.

ghost use Rattle.std.specs.Prelude.{◌≡◌, find};
ghost use Rattle.flow_times.specs.Elements as elements;

use ipfix_message::Fields;
use ipfix_wire::ElementId;

/// An element that says when a flow starts, or how long it lasts, or otherwise than in milliseconds or seconds since
/// 1970-01-01 UTC when it ends (IANA, "IPFIX Information Elements").
#[derive(Clone, Copy, Debug, PartialEq, Eq)]
pub enum TimeElement {
    /// In milliseconds.
    FlowStartMilliseconds,
    /// In seconds.
    FlowStartSeconds,
    /// In the format of NTP (RFC 7011, section 6.1.9).
    FlowStartMicroseconds,
    /// In the format of NTP (RFC 7011, section 6.1.10).
    FlowStartNanoseconds,
    /// In microseconds before the export time of the message.
    FlowStartDeltaMicroseconds,
    /// In milliseconds from when the exporter was started.
    FlowStartSysUpTime,
    /// In the format of NTP (RFC 7011, section 6.1.9).
    FlowEndMicroseconds,
    /// In the format of NTP (RFC 7011, section 6.1.10).
    FlowEndNanoseconds,
    /// In microseconds before the export time of the message.
    FlowEndDeltaMicroseconds,
    /// In milliseconds from when the exporter was started.
    FlowEndSysUpTime,
    /// From start to end, in milliseconds.
    FlowDurationMilliseconds,
    /// From start to end, in microseconds.
    FlowDurationMicroseconds,
}

impl TimeElement {
    /// Its number.
    pub fn number(self) -> u16
        ensures { result ≡ elements.number_of self }
    {
        match self {
            TimeElement::FlowStartMilliseconds => 152,
            TimeElement::FlowStartSeconds => 150,
            TimeElement::FlowStartMicroseconds => 154,
            TimeElement::FlowStartNanoseconds => 156,
            TimeElement::FlowStartDeltaMicroseconds => 158,
            TimeElement::FlowStartSysUpTime => 22,
            TimeElement::FlowEndMicroseconds => 155,
            TimeElement::FlowEndNanoseconds => 157,
            TimeElement::FlowEndDeltaMicroseconds => 159,
            TimeElement::FlowEndSysUpTime => 21,
            TimeElement::FlowDurationMilliseconds => 161,
            TimeElement::FlowDurationMicroseconds => 162,
        }
    }

    /// Its name in the registry.
    pub fn name(self) -> &'static str
        ensures { result.now ≡ elements.name_of self }
    {
        match self {
            TimeElement::FlowStartMilliseconds => "flowStartMilliseconds",
            TimeElement::FlowStartSeconds => "flowStartSeconds",
            TimeElement::FlowStartMicroseconds => "flowStartMicroseconds",
            TimeElement::FlowStartNanoseconds => "flowStartNanoseconds",
            TimeElement::FlowStartDeltaMicroseconds => "flowStartDeltaMicroseconds",
            TimeElement::FlowStartSysUpTime => "flowStartSysUpTime",
            TimeElement::FlowEndMicroseconds => "flowEndMicroseconds",
            TimeElement::FlowEndNanoseconds => "flowEndNanoseconds",
            TimeElement::FlowEndDeltaMicroseconds => "flowEndDeltaMicroseconds",
            TimeElement::FlowEndSysUpTime => "flowEndSysUpTime",
            TimeElement::FlowDurationMilliseconds => "flowDurationMilliseconds",
            TimeElement::FlowDurationMicroseconds => "flowDurationMicroseconds",
        }
    }
}

/// The first element that a record has a field of of those that say a time otherwise than in milliseconds or seconds: one
/// of a start, else of an end, else of a duration.
pub fn other_time(fields: &Fields) -> Option<TimeElement>
    ensures { result ≡ elements.other_time fields.now }
{
    let order = [
        TimeElement::FlowStartMicroseconds,
        TimeElement::FlowStartNanoseconds,
        TimeElement::FlowStartDeltaMicroseconds,
        TimeElement::FlowStartSysUpTime,
        TimeElement::FlowEndMicroseconds,
        TimeElement::FlowEndNanoseconds,
        TimeElement::FlowEndDeltaMicroseconds,
        TimeElement::FlowEndSysUpTime,
        TimeElement::FlowDurationMilliseconds,
        TimeElement::FlowDurationMicroseconds,
    ];
    first_of(&order, fields)
}

/// The first element of a start that a record has a field of, in the order in which starts are read; else of a duration.
pub fn start_element(fields: &Fields) -> Option<TimeElement>
    ensures { result ≡ elements.start_element fields.now }
{
    let order = [
        TimeElement::FlowStartMilliseconds,
        TimeElement::FlowStartSeconds,
        TimeElement::FlowStartMicroseconds,
        TimeElement::FlowStartNanoseconds,
        TimeElement::FlowStartDeltaMicroseconds,
        TimeElement::FlowStartSysUpTime,
        TimeElement::FlowDurationMilliseconds,
        TimeElement::FlowDurationMicroseconds,
    ];
    first_of(&order, fields)
}

fn first_of(order: &[TimeElement], fields: &Fields) -> Option<TimeElement>
    ensures { result ≡ find (elements.has_field fields.now) order.now }
{
    order
        .iter()
        .copied()
        .find(|element| has_field(fields, *element))
}

fn has_field(fields: &Fields, element: TimeElement) -> bool
    ensures { result ≡ elements.has_field fields.now element }
{
    fields.find(ElementId::iana(element.number())).is_some()
}
