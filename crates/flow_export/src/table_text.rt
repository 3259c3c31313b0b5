//! What a table is written as.

ghost use Rattle.std.specs.Prelude.{◌↔◌, IsTrue};
ghost use Rattle.flow_export.specs.TableTexts.{IsTooMany};

use element_registry::Elements;

/// A table of so many rows is not written as messages of IPFIX: their sequence numbers would not have room in 32 bits
/// (RFC 7011, section 3.1).
const ROW_LIMIT: usize = 1 << 32;

/// What a table is written as, and what that takes besides a plan and rows.
#[derive(Clone, Copy)]
pub enum TableText<'a> {
    /// CSV (RFC 4180): a line with the names of the fields, and then a line for each row. A line has the first and the
    /// last millisecond of the row's interval, the cells of the key, the sums and the number of flows. Commas stand between
    /// the fields, and a line feed ends each line. A name that needs quotes has them; no name that a file says needs any.
    Csv(&'a Elements),
    /// Lines of JSON: for each row an object (RFC 8259, section 4) and a line feed. Its members are the fields of the line
    /// of CSV, with the names of the heading and in its order. A number below 2^53 is a number, every other value a text:
    /// so far every reader of JSON holds whole numbers exactly (RFC 7493, section 2.2). A table without rows has no lines.
    Json(&'a Elements),
    /// Messages of IPFIX in domain 0 (RFC 7011) with this export time, in seconds since 1970-01-01 UTC: a template, and then
    /// the rows as its data records, [`ROWS_A_MESSAGE`](crate::ROWS_A_MESSAGE) in a message. A record has the first and the
    /// last millisecond of the row's interval, the cells of the key, each as wide as its element's kind, the sums, and the
    /// number of flows (RFC 7015, section 7). Sequence numbers count the rows before a message.
    Ipfix(u32),
}

impl TableText<'_> {
    /// Whether a table of so many rows is not written.
    pub fn is_too_many(&self, rows: usize) -> bool
        ensures { IsTrue result ↔ IsTooMany self.now rows }
    {
        match self {
            TableText::Csv(_) | TableText::Json(_) => false,
            TableText::Ipfix(_) => rows >= ROW_LIMIT,
        }
    }
}
