//! What the messages of a session come over.

/// What the messages of a session come over (RFC 7011, section 10).
#[derive(Clone, Copy, Debug, PartialEq, Eq)]
pub enum Transport {
    /// A connection (section 10.4).
    Connection,
    /// Datagrams (section 10.3): the session has all of a peer's, from one port.
    Datagrams,
}
