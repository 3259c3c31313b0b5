//! The limits of a peer's session.

/// What a session of a peer may keep, and for how long.
#[derive(Clone, Copy, Debug, PartialEq, Eq)]
pub struct PeerLimits {
    /// For how many seconds a datagram that is ahead of the due sequence number waits, and one that comes late replaces no template that
    /// was sent after it. With 0 none waits, none is dropped, and each that comes replaces what it defines.
    pub reorder: u64,
    /// What the templates of the peer may count: each counts 8 and its field specifiers, and each domain 16.
    pub templates: u64,
}
