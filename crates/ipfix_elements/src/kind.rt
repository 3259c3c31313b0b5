//! How the octets of a field are read.

ghost use Rattle.std.specs.Prelude.{◌≡◌};
ghost use Rattle.ipfix_elements.specs.Values.{octets_of};

/// How many octets an unsigned number has at its full width (RFC 7011, section 6.1.1).
#[derive(Clone, Copy, Debug, PartialEq, Eq)]
pub enum Width {
    One,
    Two,
    Four,
    Eight,
}

impl Width {
    /// The number of octets.
    pub fn octets(self) -> usize
        ensures { result ≡ octets_of self }
    {
        match self {
            Width::One => 1,
            Width::Two => 2,
            Width::Four => 4,
            Width::Eight => 8,
        }
    }
}

/// How the octets of a field are read (RFC 7012, section 3.1).
#[derive(Clone, Copy, Debug, PartialEq, Eq)]
pub enum Kind {
    /// A number, in all of its octets or in fewer (RFC 7011, section 6.2).
    Unsigned(Width),
    /// An IPv4 address.
    Ipv4,
    /// An IPv6 address.
    Ipv6,
    /// An IEEE 802 MAC address.
    Mac,
    /// Seconds since 1970-01-01 UTC, in 4 octets.
    Seconds,
    /// Milliseconds since 1970-01-01 UTC, in 8 octets.
    Millis,
    /// Octets that stand for themselves.
    Octets,
}
