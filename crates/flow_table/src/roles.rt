//! What an element may be in a plan: a key or a counter, built in or known from files.

ghost use Rattle.std.specs.Prelude.{◌≡◌, IfOk};
ghost use Rattle.std.specs.List.{list_any};
ghost use Rattle.element_registry.specs.Registries.{element_kind};
ghost use Rattle.flow_table.specs.Plans as plans;

use crate::choices::Totals;
use crate::context::{
    EXPORTER_IPV4_NUMBER, EXPORTER_IPV6_NUMBER, EXPORTER_NUMBER, OBSERVATION_DOMAIN_NUMBER,
    context_kind,
};
use crate::key::{DESTINATION_IPV6_ADDRESS, Key, KeyElements, SOURCE_IPV6_ADDRESS};
use element_registry::{ElementKind, Elements};
use ipfix_elements::{Kind, Width, iana, name_of};
use ipfix_wire::ElementId;
use std::alloc::{AllocError, Global};

/// The numbers of elements are below this one: its bit tells an element of an enterprise (RFC 7011,
/// section 3.2).
const NUMBER_LIMIT: u16 = 1 << 15;

/// The addresses of IPv4 that may have a prefix.
const IPV4_ADDRESSES: [u16; 2] = [iana::SOURCE_IPV4_ADDRESS, iana::DESTINATION_IPV4_ADDRESS];

/// The addresses of IPv6 that may have a prefix.
const IPV6_ADDRESSES: [u16; 2] = [SOURCE_IPV6_ADDRESS, DESTINATION_IPV6_ADDRESS];

/// The elements of context.
const CONTEXT: [u16; 4] = [
    EXPORTER_NUMBER,
    EXPORTER_IPV4_NUMBER,
    EXPORTER_IPV6_NUMBER,
    OBSERVATION_DOMAIN_NUMBER,
];

/// The delta counters of octets, packets and flows.
const COUNTERS: [u16; 7] = [
    iana::OCTET_DELTA_COUNT,
    iana::PACKET_DELTA_COUNT,
    iana::DELTA_FLOW_COUNT,
    iana::POST_OCTET_DELTA_COUNT,
    iana::POST_PACKET_DELTA_COUNT,
    iana::DROPPED_OCTET_DELTA_COUNT,
    iana::DROPPED_PACKET_DELTA_COUNT,
];

/// Number of octetTotalCount.
const OCTET_TOTAL_COUNT: u16 = 85;

/// Number of packetTotalCount.
const PACKET_TOTAL_COUNT: u16 = 86;

/// The totals that may be added up by choice.
const TOTALS: [u16; 2] = [OCTET_TOTAL_COUNT, PACKET_TOTAL_COUNT];

fn is_element(element: ElementId) -> bool
    ensures { result ≡ plans.is_element element }
{
    element.number < NUMBER_LIMIT
}

fn is_key_kind(kind: Kind) -> bool
    ensures { result ≡ plans.is_key_kind kind }
{
    match kind {
        Kind::Unsigned(_) | Kind::Ipv4 | Kind::Ipv6 | Kind::Mac => true,
        Kind::Seconds | Kind::Millis | Kind::Octets => false,
    }
}

// The kind that a key is read by: that of octets, if it can be no key.
fn field_kind(kind: ElementKind) -> Kind
    ensures { result ≡ plans.field_kind kind }
{
    match kind {
        ElementKind::Plain(kind) => kind,
        ElementKind::Boolean => Kind::Unsigned(Width::One),
        ElementKind::Signed(_) | ElementKind::Micros | ElementKind::Nanos | ElementKind::Text =>
            Kind::Octets,
    }
}

// The kind that the fields of an element are read by as those of a key, by what is built in or files say.
fn record_kind(elements: &Elements, element: ElementId) -> Kind
    ensures { result ≡ plans.field_kind (element_kind elements.now element) }
{
    field_kind(elements.kind_of(element))
}

/// The kind that an element's fields are read by as those of a key.
pub fn key_kind(elements: &Elements, element: ElementId) -> Kind
    ensures { result ≡ plans.key_kind elements.now element }
{
    match context_kind(element) {
        Some(kind) => kind,
        None => record_kind(elements, element),
    }
}

/// The kinds of keys, in their order.
pub fn kinds_of(alloc: Global, elements: &Elements, keys: &[Key]) -> Result<Vec<Kind>, AllocError>
    ensures { IfOk result (λ kinds. kinds.items ≡ plans.kinds_of elements.now keys.now) }
{
    keys.iter()
        .map(|key| key_kind(elements, key.element))
        .collect(alloc)
}

// Whether an element may be a key by the fields of records alone.
fn is_record_key(elements: &Elements, element: ElementId) -> bool
    ensures { result ≡ plans.is_record_key elements.now element }
{
    is_element(element) && is_key_kind(record_kind(elements, element))
}

// Whether an element is one of context.
fn is_context(element: ElementId) -> bool
    ensures { result ≡ plans.is_context element }
{
    element.pen == 0 && CONTEXT.contains(&element.number)
}

/// Whether an element may be a key of a plan: an element of context, or a number, a truth value or an address,
/// built in or named by a file, and with a number up to 32767 (RFC 7011, section 3.2).
pub fn is_key(elements: &Elements, element: ElementId) -> bool
    ensures { result ≡ plans.is_key elements.now element }
{
    is_context(element) || is_record_key(elements, element)
}

/// Whether an element may be a key of a plan, where these elements may.
pub(crate) fn may_be_key(which: KeyElements, elements: &Elements, element: ElementId) -> bool
    ensures { result ≡ plans.may_be_key which elements.now element }
{
    match which {
        KeyElements::OfRecords => is_record_key(elements, element),
        KeyElements::WithContext => is_key(elements, element),
    }
}

/// Whether a key of the element may have the prefix: the addresses of a flow's ends may, of up to 32 bits
/// for IPv4 and 128 for IPv6.
pub fn is_prefix_of(element: ElementId, prefix: Option<u8>) -> bool
    ensures { result ≡ plans.is_prefix_of element prefix }
{
    match prefix {
        None => true,
        Some(bits) => {
            element.pen == 0 && IPV4_ADDRESSES.contains(&element.number) && bits <= 32
                || element.pen == 0 && IPV6_ADDRESSES.contains(&element.number) && bits <= 128
        }
    }
}

fn is_built_in_counter(element: ElementId) -> bool
    ensures { result ≡ plans.is_built_in_counter element }
{
    element.pen == 0 && COUNTERS.contains(&element.number)
}

fn is_unsigned64(kind: ElementKind) -> bool
    ensures { result ≡ plans.is_unsigned64 kind }
{
    matches!(kind, ElementKind::Plain(Kind::Unsigned(Width::Eight)))
}

// Whether what a file says makes the element a counter.
#[tactic(auto, using(crate::proofs::Counting::counts_once))]
fn is_delta(elements: &Elements, element: ElementId) -> bool
    ensures { result ≡ list_any (plans.is_delta_of element) elements.now }
{
    match elements.find_entry(element) {
        Some(entry) => entry.is_delta && is_unsigned64(entry.kind),
        None => false,
    }
}

/// Whether an element may be a counter of a plan: a delta counter of octets, packets or flows that is
/// built in, or of an unsigned type by a file (RFC 7012, section 3.2.3). Each has the kind of unsigned64.
pub fn is_counter(elements: &Elements, element: ElementId) -> bool
    ensures { result ≡ plans.is_counter elements.now element }
{
    is_built_in_counter(element)
        || is_element(element) && name_of(element).is_none() && is_delta(elements, element)
}

// Whether the element is a total that is taken as a delta.
fn is_taken_total(totals: Totals, element: ElementId) -> bool
    ensures { result ≡ plans.is_taken_total totals element }
{
    match totals {
        Totals::Refused => false,
        Totals::AsDeltas => element.pen == 0 && TOTALS.contains(&element.number),
    }
}

/// Whether an element may be a counter of a plan with this choice: a counter, as [`is_counter`] says, or
/// a total that is taken as a delta.
pub fn may_count(elements: &Elements, totals: Totals, element: ElementId) -> bool
    ensures { result ≡ plans.may_count elements.now totals element }
{
    is_counter(elements, element) || is_taken_total(totals, element)
}
