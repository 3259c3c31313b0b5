//! What a session may take.

/// How far a session goes: the most reads of its source, and what its templates may count.
#[derive(Clone, Copy, Debug, PartialEq, Eq)]
pub struct SessionLimits {
    /// The most reads, as [`READ_LIMIT`](crate::READ_LIMIT).
    pub reads: u64,
    /// What the templates in force may count together, those of options among them; `None` is no limit. A template
    /// counts 8 and its field specifiers ([`count_of`](ipfix_message::count_of)), a domain 16. After a message that
    /// leaves more the session ends with `TooManyFields`, and has none of its records.
    pub templates: Option<u64>,
}
