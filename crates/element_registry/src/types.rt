//! The names of types.

ghost use Rattle.std.specs.Prelude.{◌≡◌, map};
ghost use Rattle.element_registry.specs.Rows.{counter_kind as counter_kind_of, kind_by as kind_of_both, kind_of_type as kind_of};
ghost use Rattle.element_registry.specs.Types.{kind_among, kind_named as kind_in, shown_type};

use crate::kind::ElementKind;
use ipfix_elements::{Kind, Width};

/// A type's name, and the kind that its fields are read by.
#[derive(Clone, Copy)]
struct DataType {
    name: &'static str,
    kind: ElementKind,
}

macro_rules! types {
    ($(($name:literal, $kind:expr),)*) => {
        [$(DataType { name: $name, kind: $kind }),*]
    };
}

const OCTETS: ElementKind = ElementKind::Plain(Kind::Octets);

static TYPES: [DataType; 23] = types![
    ("unsigned8", ElementKind::Plain(Kind::Unsigned(Width::One))),
    ("unsigned16", ElementKind::Plain(Kind::Unsigned(Width::Two))),
    (
        "unsigned32",
        ElementKind::Plain(Kind::Unsigned(Width::Four))
    ),
    (
        "unsigned64",
        ElementKind::Plain(Kind::Unsigned(Width::Eight))
    ),
    ("signed8", ElementKind::Signed(Width::One)),
    ("signed16", ElementKind::Signed(Width::Two)),
    ("signed32", ElementKind::Signed(Width::Four)),
    ("signed64", ElementKind::Signed(Width::Eight)),
    ("boolean", ElementKind::Boolean),
    ("ipv4Address", ElementKind::Plain(Kind::Ipv4)),
    ("ipv6Address", ElementKind::Plain(Kind::Ipv6)),
    ("macAddress", ElementKind::Plain(Kind::Mac)),
    ("string", ElementKind::Text),
    ("dateTimeSeconds", ElementKind::Plain(Kind::Seconds)),
    ("dateTimeMilliseconds", ElementKind::Plain(Kind::Millis)),
    ("dateTimeMicroseconds", ElementKind::Micros),
    ("dateTimeNanoseconds", ElementKind::Nanos),
    ("octetArray", OCTETS),
    ("basicList", OCTETS),
    ("subTemplateList", OCTETS),
    ("subTemplateMultiList", OCTETS),
    ("float32", OCTETS),
    ("float64", OCTETS),
];

/// The kind of a type, as a delta counter or not.
pub fn kind_by(name: &[u8], is_delta: bool) -> ElementKind
    ensures { result ≡ kind_of_both name.now is_delta }
{
    let kind = kind_of_type(name);
    if is_delta { counter_kind(kind) } else { kind }
}

// The kind of a delta counter: that of unsigned64 for each unsigned type.
fn counter_kind(kind: ElementKind) -> ElementKind
    ensures { result ≡ counter_kind_of kind }
{
    match kind {
        ElementKind::Plain(Kind::Unsigned(_)) => ElementKind::Plain(Kind::Unsigned(Width::Eight)),
        _ => kind,
    }
}

// The kind of a type: octets, if it is not known.
fn kind_of_type(name: &[u8]) -> ElementKind
    ensures { result ≡ kind_of name.now }
{
    kind_named(name).unwrap_or(OCTETS)
}

/// The kind of a type, if it is known.
#[tactic(auto, unfolding(crate::specs::Types::types))]
pub fn kind_named(name: &[u8]) -> Option<ElementKind>
    ensures { result ≡ kind_in name.now }
{
    find_type(&TYPES, name)
}

fn find_type(mut types: &'static [DataType], name: &[u8]) -> Option<ElementKind>
    ensures { result ≡ kind_among (map shown_type types.entry.now) name.now }
{
    while let [data_type, rest @ ..] = types {
        if data_type.name.as_bytes() == name {
            return Some(data_type.kind);
        }
        types = rest;
    }
    None
}
