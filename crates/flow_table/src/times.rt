//! Start and end of a flow (RFC 7011, sections 6.1.7 to 6.1.10; uptimes by RFC 7012, section 5).

ghost use Rattle.std.specs.Prelude.{◌≡◌, ◌<◌, ◌*◌, ◌^◌, IfSome};
ghost use Rattle.ipfix_elements.specs.Elements.{iana, kind_of};
ghost use Rattle.flow_table.specs.Reading as reading;

use crate::choices::Times;
use element_values::{read_micros, read_nanos};
use ipfix_elements::{Kind, Width, iana, read_number};
use ipfix_message::DataRecord;
use ipfix_wire::ElementId;

/// In milliseconds since 1970-01-01 UTC: times from here on count as absent.
pub const TIME_LIMIT: u64 = 1 << 50;

/// Number of flowStartMicroseconds.
const FLOW_START_MICROSECONDS: u16 = 154;

/// Number of flowEndMicroseconds.
const FLOW_END_MICROSECONDS: u16 = 155;

/// Number of flowStartNanoseconds.
const FLOW_START_NANOSECONDS: u16 = 156;

/// Number of flowEndNanoseconds.
const FLOW_END_NANOSECONDS: u16 = 157;

/// Number of flowStartDeltaMicroseconds.
const FLOW_START_DELTA_MICROSECONDS: u16 = 158;

/// Number of flowEndDeltaMicroseconds.
const FLOW_END_DELTA_MICROSECONDS: u16 = 159;

/// Number of flowDurationMilliseconds.
const FLOW_DURATION_MILLISECONDS: u16 = 161;

/// Number of flowDurationMicroseconds.
const FLOW_DURATION_MICROSECONDS: u16 = 162;

/// Number of flowEndSysUpTime: milliseconds from when the exporter was started.
const FLOW_END_SYS_UP_TIME: u16 = 21;

/// Number of flowStartSysUpTime: milliseconds from when the exporter was started.
const FLOW_START_SYS_UP_TIME: u16 = 22;

/// Number of systemInitTimeMilliseconds: when the exporter was started, in milliseconds since 1970-01-01 UTC.
const SYSTEM_INIT_TIME_MILLISECONDS: u16 = 160;

/// In milliseconds: an uptime has 32 bits, and so is the same again this much later.
const UPTIME_ROUND: u64 = 1 << 32;

/// In milliseconds: a message's export time is in whole seconds.
const EXPORT_RESOLUTION: u64 = 1000;

// A time that is below the limit.
fn time_in(time: u64) -> Option<u64>
    ensures value { result ≡ reading.time_in time }
    ensures small { IfSome result (λ t. t < 2 ^ 50) }
{
    if time < TIME_LIMIT { Some(time) } else { None }
}

/// The time in the first field of an element, whose unit is so many milliseconds.
#[inline(always)]
fn time_of(data_record: &DataRecord, number: u16, kind: Kind, unit: u64) -> Option<u64>
    requires { kind_of (iana number) ≡ kind }
    ensures value { result ≡ reading.time_of (iana number) unit data_record.now }
    ensures small { IfSome result (λ t. t < 2 ^ 50) }
{
    let octets = data_record.fields.find(ElementId::iana(number))?;
    let time = read_number(kind, octets)?.checked_mul(unit)?;
    if time < TIME_LIMIT { Some(time) } else { None }
}

// The start in milliseconds, or else in seconds.
#[inline(always)]
#[tactic(auto, unfolding(ipfix_elements::specs::Elements::elements))]
fn basic_start(data_record: &DataRecord) -> Option<u64>
    ensures value { result ≡ reading.basic_start data_record.now }
    ensures small { IfSome result (λ t. t < 2 ^ 50) }
{
    match time_of(data_record, iana::FLOW_START_MILLISECONDS, Kind::Millis, 1) {
        None => time_of(data_record, iana::FLOW_START_SECONDS, Kind::Seconds, 1000),
        start => start,
    }
}

// The end in milliseconds, or else in seconds.
#[inline(always)]
#[tactic(auto, unfolding(ipfix_elements::specs::Elements::elements))]
fn basic_end(data_record: &DataRecord) -> Option<u64>
    ensures value { result ≡ reading.basic_end data_record.now }
    ensures small { IfSome result (λ t. t < 2 ^ 50) }
{
    match time_of(data_record, iana::FLOW_END_MILLISECONDS, Kind::Millis, 1) {
        None => time_of(data_record, iana::FLOW_END_SECONDS, Kind::Seconds, 1000),
        end => end,
    }
}

// The time that an element says in microseconds.
fn micros_time(data_record: &DataRecord, number: u16) -> Option<u64>
    ensures value { result ≡ reading.micros_time (iana number) data_record.now }
    ensures small { IfSome result (λ t. t < 2 ^ 50) }
{
    let octets = data_record.fields.find(ElementId::iana(number))?;
    time_in(read_micros(octets)? / 1000)
}

// The time that an element says in nanoseconds.
fn nanos_time(data_record: &DataRecord, number: u16) -> Option<u64>
    ensures value { result ≡ reading.nanos_time (iana number) data_record.now }
    ensures small { IfSome result (λ t. t < 2 ^ 50) }
{
    let octets = data_record.fields.find(ElementId::iana(number))?;
    time_in(read_nanos(octets)? / 1_000_000)
}

fn unsigned32_of(data_record: &DataRecord, number: u16) -> Option<u64>
    ensures { result ≡ reading.unsigned32_of (iana number) data_record.now }
{
    let octets = data_record.fields.find(ElementId::iana(number))?;
    read_number(Kind::Unsigned(Width::Four), octets)
}

// The time that an element says in microseconds before the export time.
fn delta_time(data_record: &DataRecord, number: u16) -> Option<u64>
    ensures value { result ≡ reading.delta_time (iana number) data_record.now }
    ensures small { IfSome result (λ t. t < 2 ^ 50) }
{
    let delta = unsigned32_of(data_record, number)?;
    let exported = u64::from(data_record.export_time) * 1_000_000;
    time_in(exported.checked_sub(delta)? / 1000)
}

// The first time by these elements: in microseconds, in nanoseconds, or before the export time.
fn fine_time(data_record: &DataRecord, micros: u16, nanos: u16, delta: u16) -> Option<u64>
    ensures value { result ≡ reading.fine_time micros nanos delta data_record.now }
    ensures small { IfSome result (λ t. t < 2 ^ 50) }
{
    if let Some(time) = micros_time(data_record, micros) {
        return Some(time);
    }
    match nanos_time(data_record, nanos) {
        None => delta_time(data_record, delta),
        time => time,
    }
}

fn fine_start(data_record: &DataRecord) -> Option<u64>
    ensures value { result ≡ reading.fine_start data_record.now }
    ensures small { IfSome result (λ t. t < 2 ^ 50) }
{
    fine_time(
        data_record,
        FLOW_START_MICROSECONDS,
        FLOW_START_NANOSECONDS,
        FLOW_START_DELTA_MICROSECONDS,
    )
}

fn fine_end(data_record: &DataRecord) -> Option<u64>
    ensures value { result ≡ reading.fine_end data_record.now }
    ensures small { IfSome result (λ t. t < 2 ^ 50) }
{
    fine_time(
        data_record,
        FLOW_END_MICROSECONDS,
        FLOW_END_NANOSECONDS,
        FLOW_END_DELTA_MICROSECONDS,
    )
}

// The start that an element says.
fn told_start(data_record: &DataRecord) -> Option<u64>
    ensures value { result ≡ reading.told_start data_record.now }
    ensures small { IfSome result (λ t. t < 2 ^ 50) }
{
    match basic_start(data_record) {
        None => fine_start(data_record),
        start => start,
    }
}

// The end that an element says.
fn told_end(data_record: &DataRecord) -> Option<u64>
    ensures value { result ≡ reading.told_end data_record.now }
    ensures small { IfSome result (λ t. t < 2 ^ 50) }
{
    match basic_end(data_record) {
        None => fine_end(data_record),
        end => end,
    }
}

// How long a flow lasts: in milliseconds, or else in microseconds.
fn duration_of(data_record: &DataRecord) -> Option<u64>
    ensures { result ≡ reading.duration_of data_record.now }
{
    match unsigned32_of(data_record, FLOW_DURATION_MILLISECONDS) {
        None => Some(unsigned32_of(data_record, FLOW_DURATION_MICROSECONDS)? / 1000),
        duration => duration,
    }
}

// An end, less the duration.
fn start_by_duration(data_record: &DataRecord, end: Option<u64>) -> Option<u64>
    requires end { IfSome end (λ t. t < 2 ^ 50) }
    ensures value { result ≡ reading.start_by_duration data_record.now end }
    ensures small { IfSome result (λ t. t < 2 ^ 50) }
{
    end?.checked_sub(duration_of(data_record)?)
}

// A start, plus the duration.
fn end_by_duration(data_record: &DataRecord, start: Option<u64>) -> Option<u64>
    ensures value { result ≡ reading.end_by_duration data_record.now start }
    ensures small { IfSome result (λ t. t < 2 ^ 50) }
{
    time_in(start?.checked_add(duration_of(data_record)?)?)
}

// The first time at which the uptime is what an element says.
fn first_time(data_record: &DataRecord, number: u16) -> Option<u64>
    ensures value { result ≡ reading.first_time (iana number) data_record.now }
    ensures small { IfSome result (λ t. t < 2 ^ 50) }
{
    let octets = data_record
        .fields
        .find(ElementId::iana(SYSTEM_INIT_TIME_MILLISECONDS))?;
    let started = read_number(Kind::Millis, octets)?;
    time_in(started.checked_add(unsigned32_of(data_record, number)?)?)
}

// The end of a flow that says its start or its end by uptime.
fn uptime_end_of(data_record: &DataRecord) -> Option<u64>
    ensures value { result ≡ reading.uptime_end_of data_record.now }
    ensures small { IfSome result (λ t. t < 2 ^ 50) }
{
    if let Some(end) = told_end(data_record) {
        return Some(end);
    }
    match first_time(data_record, FLOW_END_SYS_UP_TIME) {
        None => end_by_duration(data_record, first_time(data_record, FLOW_START_SYS_UP_TIME)),
        end => end,
    }
}

// Whether the first time of an uptime is the one that is meant, by a flow that ends then.
fn is_known(data_record: &DataRecord, end: u64, first: u64) -> bool
    requires end { end < 2 ^ 50 }
    requires first { first < 2 ^ 50 }
    ensures { result ≡ reading.is_known data_record.now end first }
{
    let latest = u64::from(data_record.export_time) * 1000 + EXPORT_RESOLUTION;
    end <= latest && latest < end + UPTIME_ROUND && end < first + UPTIME_ROUND
}

// The time that an element says by uptime.
fn uptime_time(data_record: &DataRecord, number: u16) -> Option<u64>
    ensures value { result ≡ reading.uptime_time (iana number) data_record.now }
    ensures small { IfSome result (λ t. t < 2 ^ 50) }
{
    let end = uptime_end_of(data_record)?;
    let first = first_time(data_record, number)?;
    if is_known(data_record, end, first) {
        Some(first)
    } else {
        None
    }
}

fn uptime_start(data_record: &DataRecord) -> Option<u64>
    ensures value { result ≡ reading.uptime_start data_record.now }
    ensures small { IfSome result (λ t. t < 2 ^ 50) }
{
    uptime_time(data_record, FLOW_START_SYS_UP_TIME)
}

fn uptime_end(data_record: &DataRecord) -> Option<u64>
    ensures value { result ≡ reading.uptime_end data_record.now }
    ensures small { IfSome result (λ t. t < 2 ^ 50) }
{
    uptime_time(data_record, FLOW_END_SYS_UP_TIME)
}

// The start that an element or an uptime says.
fn any_start(data_record: &DataRecord) -> Option<u64>
    ensures value { result ≡ reading.any_start data_record.now }
    ensures small { IfSome result (λ t. t < 2 ^ 50) }
{
    match told_start(data_record) {
        None => uptime_start(data_record),
        start => start,
    }
}

// The end that an element or an uptime says.
fn any_end(data_record: &DataRecord) -> Option<u64>
    ensures value { result ≡ reading.any_end data_record.now }
    ensures small { IfSome result (λ t. t < 2 ^ 50) }
{
    match told_end(data_record) {
        None => uptime_end(data_record),
        end => end,
    }
}

// The start of a flow that says none in milliseconds or seconds. (A call: few records come here.)
#[inline(never)]
fn other_start(data_record: &DataRecord) -> Option<u64>
    ensures value { result ≡ reading.other_start data_record.now }
    ensures small { IfSome result (λ t. t < 2 ^ 50) }
{
    if let Some(start) = fine_start(data_record) {
        return Some(start);
    }
    match uptime_start(data_record) {
        None => start_by_duration(data_record, any_end(data_record)),
        start => start,
    }
}

// The end of a flow that says none in milliseconds or seconds.
#[inline(never)]
fn other_end(data_record: &DataRecord) -> Option<u64>
    ensures value { result ≡ reading.other_end data_record.now }
    ensures small { IfSome result (λ t. t < 2 ^ 50) }
{
    if let Some(end) = fine_end(data_record) {
        return Some(end);
    }
    match uptime_end(data_record) {
        None => end_by_duration(data_record, any_start(data_record)),
        end => end,
    }
}

/// The start of a flow, in milliseconds since 1970-01-01 UTC and below 2^50, by these elements.
#[tactic(auto, unfolding(crate::specs::Reading::start_of))]
pub(crate) fn start_of(times: Times, data_record: &DataRecord) -> Option<u64>
    ensures value { result ≡ reading.start_of times data_record.now }
    ensures small { IfSome result (λ t. t < 2 ^ 50) }
{
    match (basic_start(data_record), times) {
        (None, Times::All) => other_start(data_record),
        (start, _) => start,
    }
}

/// The end of a flow, in milliseconds since 1970-01-01 UTC and below 2^50, by these elements.
#[tactic(auto, unfolding(crate::specs::Reading::end_of))]
pub(crate) fn end_of(times: Times, data_record: &DataRecord) -> Option<u64>
    ensures value { result ≡ reading.end_of times data_record.now }
    ensures small { IfSome result (λ t. t < 2 ^ 50) }
{
    match (basic_end(data_record), times) {
        (None, Times::All) => other_end(data_record),
        (end, _) => end,
    }
}
