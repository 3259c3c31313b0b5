//! How a dump is written.

use element_registry::Elements;

/// What a data record becomes.
#[derive(Clone, Copy, Debug, PartialEq, Eq)]
pub enum Form {
    /// A line of text.
    Text,
    /// An object of JSON (RFC 8259), on a line of its own.
    Json,
}

/// How a dump is written.
#[derive(Clone, Copy)]
pub struct DumpOptions<'a> {
    /// What each data record becomes.
    pub form: Form,
    /// By these, elements are named and their values are read.
    pub elements: &'a Elements,
    /// What the templates of the session may count, if they have a limit.
    pub templates: Option<u64>,
}
