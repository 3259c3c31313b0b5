//! The formats of an export.

/// How a table is exported.
#[derive(Clone, Copy, Debug, PartialEq, Eq)]
pub enum Format {
    /// A line of text for each row.
    Csv,
    /// An object of JSON (RFC 8259) for each row, on a line of its own.
    Json,
    /// Messages of IPFIX (RFC 7011): a template, and a data record for each row.
    Ipfix,
}
