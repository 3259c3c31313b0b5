//! The options that commands share.

use crate::arguments::{Argument, Due, LARGEST, Takes};
use crate::format_words::{
    DUMP_FORMAT_DEFAULT, DUMP_FORMATS, MERGE_INTERVALS, TABLE_FORMAT_DEFAULT, TABLE_FORMATS,
};

/// The word of the option that stands for the files that `files` reads.
pub const FILES_FROM_WORD: &str = "files-from";

pub const PLAN: Argument = Argument {
    word: "plan",
    takes: Takes::Text("P"),
    due: Due::Always,
    help: "The plan of the aggregation, a TOML file",
};

pub const ELEMENTS: Argument = Argument {
    word: "elements",
    takes: Takes::Texts("FILE"),
    due: Due::Never,
    help: "A file with more elements, in the form of IANA's list; may be repeated",
};

pub const WORKERS: Argument = Argument {
    word: "workers",
    takes: Takes::Number("N", 0, LARGEST),
    due: Due::Default("1"),
    help: "How many threads aggregate, 1 to 16; more than sessions or processors are of no use",
};

pub const RING: Argument = Argument {
    word: "ring",
    takes: Takes::Number("C", 0, LARGEST),
    due: Due::Default("64"),
    help: "How many records may wait between a session and its worker, 1 to 65536; 1024 is faster, 64 takes the least memory",
};

/// What the templates of a session may count. `record` has the same word, and always a limit.
pub const SESSION_TEMPLATES: Argument = Argument {
    word: "templates",
    takes: Takes::Number("FIELDS", 1, LARGEST),
    due: Due::Never,
    help: "End a session whose templates would count more (a template counts 8 and its fields, a domain 16)",
};

pub const DIRECT: Argument = Argument {
    word: "direct",
    takes: Takes::Nothing(None),
    due: Due::Never,
    help: "Read any number of files, one after another in each thread of --workers; --ring changes nothing",
};

pub const FILES_FROM: Argument = Argument {
    word: FILES_FROM_WORD,
    takes: Takes::Text("LIST"),
    due: Due::Never,
    help: "A file with the names of more files, one a line; '-' is standard input",
};

pub const EXPORTER: Argument = Argument {
    word: "exporter",
    takes: Takes::Texts("FILE=ADDRESS"),
    due: Due::Never,
    help: "The address of the exporter that FILE is of, whatever its name says; may be repeated",
};

/// How a data record is written.
pub const DUMP_FORMAT: Argument = Argument {
    word: "format",
    takes: Takes::Word("FORMAT", &DUMP_FORMATS),
    due: Due::Default(DUMP_FORMAT_DEFAULT),
    help: "How a data record is written",
};

/// How a table is written.
pub const TABLE_FORMAT: Argument = Argument {
    word: "format",
    takes: Takes::Word("FORMAT", &TABLE_FORMATS),
    due: Due::Default(TABLE_FORMAT_DEFAULT),
    help: "How the table is written",
};

pub const TIME: Argument = Argument {
    word: "time",
    takes: Takes::Number("T", 0, LARGEST),
    due: Due::Default("0"),
    help: "The export time in the messages of --format ipfix, in seconds since 1970-01-01 UTC",
};

// The word of an option that says more for `merge`.
const RECEIPT_WORD: &str = "receipt";

pub const RECEIPT: Argument = Argument {
    word: RECEIPT_WORD,
    takes: Takes::Text("FILE"),
    due: Due::Never,
    help: "Write to FILE, when the table is written, what it was made of; a receipt that FILE has is replaced",
};

/// The table of a receipt.
pub const TABLE: Argument = Argument {
    word: "table",
    takes: Takes::Text("FILE"),
    due: Due::Never,
    help: "The table, if it isn't the receipt's path without '.receipt' at its end",
};

/// The files that the table of a receipt is made again of.
pub const AGAIN: Argument = Argument {
    word: "again",
    takes: Takes::Listed("FILE"),
    due: Due::Never,
    help: "Make the table again of these files, in any order, and compare what they give with the receipt",
};

pub const PROGRESS: Argument = Argument {
    word: "progress",
    takes: Takes::Nothings,
    due: Due::Never,
    help: "Show on the terminal how much each session has read; given twice, on standard error",
};

// The word of an option that prints other lines for `record`.
pub(crate) const VERBOSE_WORD: &str = "verbose";

pub const VERBOSE: Argument = Argument {
    word: VERBOSE_WORD,
    takes: Takes::Nothing(Some('v')),
    due: Due::Never,
    help: "Print more on standard error: what was opened, what was not counted, where faults are, and why",
};

// The word of an option that says less for `merge`.
const STRICT_WORD: &str = "strict";

pub const STRICT: Argument = Argument {
    word: STRICT_WORD,
    takes: Takes::Nothing(None),
    due: Due::Never,
    help: "End with status 1 also if anything was lost or not counted, and print what",
};

/// The intervals that `merge` puts rows in.
pub const MERGE_INTO: Argument = Argument {
    word: "into",
    takes: Takes::Word("INTERVAL", &MERGE_INTERVALS),
    due: Due::Never,
    help: "Add the rows of shorter intervals up into local days or months",
};

/// Whose days and months they are.
pub const ZONE: Argument = Argument {
    word: "zone",
    takes: Takes::Text("ZONE"),
    due: Due::Never,
    help: "The time zone of the days and months of --into, as Europe/Zurich; by default UTC",
};

/// Whether `merge` reads the receipts of its files.
pub const RECEIPTS: Argument = Argument {
    word: "receipts",
    takes: Takes::Nothing(None),
    due: Due::Never,
    help: "Merge FILE by its receipt, FILE.receipt: no input with data records may come twice",
};

/// Receipts of files that have other names.
pub const RECEIPT_OF: Argument = Argument {
    word: "receipt-of",
    takes: Takes::Texts("FILE=RECEIPT"),
    due: Due::Never,
    help: "With --receipts: the receipt that FILE has; may be repeated",
};

/// The receipt of a merged table.
pub const MERGE_RECEIPT: Argument = Argument {
    word: RECEIPT_WORD,
    takes: Takes::Text("FILE"),
    due: Due::Never,
    help: "With --receipts: write to FILE, when the table is written, what all its files were made of",
};

/// Whether `merge` takes parts that aren't complete.
pub const INCOMPLETE: Argument = Argument {
    word: "incomplete",
    takes: Takes::Nothing(None),
    due: Due::Never,
    help: "With --receipts: merge files whose receipts aren't complete, too",
};

/// The same of `merge`.
pub const MERGE_STRICT: Argument = Argument {
    word: STRICT_WORD,
    takes: Takes::Nothing(None),
    due: Due::Never,
    help: "End with status 1 if a file that --incomplete let through isn't complete",
};
