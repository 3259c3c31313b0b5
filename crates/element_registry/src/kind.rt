//! The kinds of elements that files name.

use ipfix_elements::{Kind, Width};

/// How the octets of a field are read (RFC 7012, section 3.1).
#[derive(Clone, Copy, Debug, PartialEq, Eq)]
pub enum ElementKind {
    /// As those of a built-in element.
    Plain(Kind),
    /// 1 for true and 2 for false, in 1 octet (RFC 7011, section 6.1.5).
    Boolean,
    /// A number with a sign, in all of its octets or in fewer (RFC 7011, sections 6.1.1 and 6.2).
    Signed(Width),
    /// Microseconds since 1970-01-01 UTC, in 8 octets (RFC 7011, section 6.1.9).
    Micros,
    /// Nanoseconds since 1970-01-01 UTC, in 8 octets (RFC 7011, section 6.1.10).
    Nanos,
    /// Text in UTF-8 (RFC 7011, section 6.1.6).
    Text,
}
