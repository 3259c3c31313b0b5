//! A template that is withdrawn.

/// A template that is withdrawn (RFC 7011, section 8.1).
#[derive(Clone, Copy, Debug, PartialEq, Eq)]
pub struct WithdrawnTemplate {
    /// Its id, from 256.
    pub id: u16,
    /// Whether it is an options template.
    pub is_options: bool,
}
