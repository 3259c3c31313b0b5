//! The names of the types that fields are read as.

ghost use Rattle.std.specs.Prelude.{◌≡◌};
ghost use Rattle.command_elements.specs.Listed.{signed_name as signed_in, type_name as name_in, unsigned_name as unsigned_in};

use element_registry::ElementKind;
use ipfix_elements::{Kind, Width};

/// The name of the type that a kind is read as (RFC 7012, section 3.1), or `octets` for each type that has no kind
/// of its own.
pub fn type_name(kind: ElementKind) -> &'static str
    ensures { result.now ≡ name_in kind }
{
    match kind {
        ElementKind::Plain(Kind::Unsigned(width)) => unsigned_name(width),
        ElementKind::Plain(Kind::Ipv4) => "ipv4Address",
        ElementKind::Plain(Kind::Ipv6) => "ipv6Address",
        ElementKind::Plain(Kind::Mac) => "macAddress",
        ElementKind::Plain(Kind::Seconds) => "dateTimeSeconds",
        ElementKind::Plain(Kind::Millis) => "dateTimeMilliseconds",
        ElementKind::Plain(Kind::Octets) => "octets",
        ElementKind::Boolean => "boolean",
        ElementKind::Signed(width) => signed_name(width),
        ElementKind::Micros => "dateTimeMicroseconds",
        ElementKind::Nanos => "dateTimeNanoseconds",
        ElementKind::Text => "string",
    }
}

fn unsigned_name(width: Width) -> &'static str
    ensures { result.now ≡ unsigned_in width }
{
    match width {
        Width::One => "unsigned8",
        Width::Two => "unsigned16",
        Width::Four => "unsigned32",
        Width::Eight => "unsigned64",
    }
}

fn signed_name(width: Width) -> &'static str
    ensures { result.now ≡ signed_in width }
{
    match width {
        Width::One => "signed8",
        Width::Two => "signed16",
        Width::Four => "signed32",
        Width::Eight => "signed64",
    }
}
