//! The arguments that stand bare.

use crate::arguments::{Argument, Due, Takes};
use crate::options::FILES_FROM_WORD;

/// The files that `files` reads.
pub const FLOW_FILES: Argument = Argument {
    word: "file",
    takes: Takes::Bares("FILE"),
    due: Due::Without(FILES_FROM_WORD),
    help: "A file of IPFIX messages; each file is a session, and '-' is standard input",
};

/// The files that `merge` reads.
pub const TABLE_FILES: Argument = Argument {
    word: "file",
    takes: Takes::Bares("FILE"),
    due: Due::Always,
    help: "A table that was written as IPFIX under the same plan; '-' is standard input",
};

/// The receipt that `verify` reads.
pub const RECEIPT_FILE: Argument = Argument {
    word: "receipt",
    takes: Takes::Bare("RECEIPT"),
    due: Due::Always,
    help: "A receipt that was written with a table",
};

/// What `finish` finishes.
pub const FOLDER: Argument = Argument {
    word: "folder",
    takes: Takes::Bare("FOLDER"),
    due: Due::Always,
    help: "A folder of recordings, which is not made if it isn't there",
};

/// What `elements` looks for.
pub const WORD: Argument = Argument {
    word: "word",
    takes: Takes::Bare("WORD"),
    due: Due::Never,
    help: "The number of an element, or e<enterprise>.<number>, or a part of its name, in any letter case",
};

/// What `explain` explains.
pub const FAULT: Argument = Argument {
    word: "fault",
    takes: Takes::Bare("FAULT"),
    due: Due::Never,
    help: "The number of a session's fault, or the name of any fault",
};
