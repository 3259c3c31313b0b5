//! The files of a part.

/// The files of a part: its table, and the receipt of that, by their paths.
#[derive(Clone, Copy)]
pub struct PartFiles<'a> {
    pub table: &'a str,
    pub receipt: &'a str,
}
