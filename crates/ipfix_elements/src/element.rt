//! The information elements that are known by name (IANA, "IPFIX Information Elements").

ghost use Rattle.std.specs.Prelude.{◌≡◌, ◌==◌, true, find, map};
ghost use Rattle.std.specs.Option.{option_copied, option_map};
ghost use Rattle.std.specs.Str.{bytes_eq};
ghost use Rattle.ipfix_elements.specs.Elements.{elements, listed, entry_of as entry_in, kind_of as kind_in, name_of as name_in};
ghost use Rattle.ipfix_elements.specs.Entries.{rise, shown};

use crate::kind::{Kind, Width};
use ipfix_wire::ElementId;

/// An element's number and name in IANA's registry, and the kind that its fields are read by.
#[derive(Clone, Copy)]
struct Entry {
    number: u16,
    name: &'static str,
    kind: Kind,
}

macro_rules! entries {
    ($(($number:literal, $name:literal, $kind:expr),)*) => {
        [$(Entry { number: $number, name: $name, kind: $kind }),*]
    };
}

const U8: Kind = Kind::Unsigned(Width::One);

const U16: Kind = Kind::Unsigned(Width::Two);

const U32: Kind = Kind::Unsigned(Width::Four);

const U64: Kind = Kind::Unsigned(Width::Eight);

static ELEMENTS: [Entry; 35] = entries![
    (1, "octetDeltaCount", U64),
    (2, "packetDeltaCount", U64),
    (3, "deltaFlowCount", U64),
    (4, "protocolIdentifier", U8),
    (5, "ipClassOfService", U8),
    (6, "tcpControlBits", U16),
    (7, "sourceTransportPort", U16),
    (8, "sourceIPv4Address", Kind::Ipv4),
    (9, "sourceIPv4PrefixLength", U8),
    (10, "ingressInterface", U32),
    (11, "destinationTransportPort", U16),
    (12, "destinationIPv4Address", Kind::Ipv4),
    (13, "destinationIPv4PrefixLength", U8),
    (14, "egressInterface", U32),
    (16, "bgpSourceAsNumber", U32),
    (17, "bgpDestinationAsNumber", U32),
    (23, "postOctetDeltaCount", U64),
    (24, "postPacketDeltaCount", U64),
    (27, "sourceIPv6Address", Kind::Ipv6),
    (28, "destinationIPv6Address", Kind::Ipv6),
    (44, "sourceIPv4Prefix", Kind::Ipv4),
    (45, "destinationIPv4Prefix", Kind::Ipv4),
    (56, "sourceMacAddress", Kind::Mac),
    (58, "vlanId", U16),
    (60, "ipVersion", U8),
    (61, "flowDirection", U8),
    (132, "droppedOctetDeltaCount", U64),
    (133, "droppedPacketDeltaCount", U64),
    (136, "flowEndReason", U8),
    (150, "flowStartSeconds", Kind::Seconds),
    (151, "flowEndSeconds", Kind::Seconds),
    (152, "flowStartMilliseconds", Kind::Millis),
    (153, "flowEndMilliseconds", Kind::Millis),
    (210, "paddingOctets", Kind::Octets),
    (375, "originalFlowsPresent", U64),
];

// The entry of a number, by a binary search.
fn find_by_number(table: &'static [Entry], number: u16) -> Option<Entry>
    requires { rise (map (λ r. r.number) table.now) ≡ true }
    ensures { option_map shown result ≡ find (λ r. r.number == number) (map shown table.now) }
{
    let place = table
        .binary_search_by_key(&number, |entry| entry.number)
        .ok()?;
    Some(table[place])
}

// The entry of an element. Those of an enterprise have none.
#[tactic(auto, unfolding(crate::specs::Elements::elements))]
fn entry_of(element: ElementId) -> Option<Entry>
    ensures { option_map shown result ≡ entry_in element }
{
    if element.pen != 0 {
        return None;
    }
    find_by_number(&ELEMENTS, element.number)
}

fn find_by_name(mut table: &'static [Entry], name: &str) -> Option<Entry>
    ensures { option_map shown result
        ≡ find (λ r. bytes_eq r.name name.now) (map shown table.entry.now) }
{
    while let [entry, rest @ ..] = table {
        if entry.name == name {
            return Some(*entry);
        }
        table = rest;
    }
    None
}

/// The element that has the name.
#[tactic(auto, unfolding(crate::specs::Elements::elements))]
pub(crate) fn listed_element(name: &str) -> Option<ElementId>
    ensures { result ≡ option_map listed (find (λ r. bytes_eq r.name name.now) elements) }
{
    match find_by_name(&ELEMENTS, name) {
        Some(entry) => Some(ElementId::iana(entry.number)),
        None => None,
    }
}

/// The kind that an element's fields are read by: `Octets` for each element that is not known.
pub fn kind_of(element: ElementId) -> Kind
    ensures { result ≡ kind_in element }
{
    match entry_of(element) {
        Some(entry) => entry.kind,
        None => Kind::Octets,
    }
}

/// The name of an element in IANA's registry, if it is known.
pub fn name_of(element: ElementId) -> Option<&'static str>
    ensures { option_copied result ≡ name_in element }
{
    Some(entry_of(element)?.name)
}
