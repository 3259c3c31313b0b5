//! The words of `--format`, and of `--into` of `merge`.

/// How a data record is dumped if nothing else is said.
pub const DUMP_FORMAT_DEFAULT: &str = "text";

/// The words for how a data record is dumped, the default first.
pub const DUMP_FORMATS: [&str; 2] = [DUMP_FORMAT_DEFAULT, "json"];

/// How a table is written if nothing else is said.
pub const TABLE_FORMAT_DEFAULT: &str = "csv";

/// The words for how a table is written, the default first.
pub const TABLE_FORMATS: [&str; 3] = [TABLE_FORMAT_DEFAULT, "ipfix", "json"];

/// The words for the intervals that a merge puts rows in.
pub const MERGE_INTERVALS: [&str; 2] = ["day", "month"];
