//! The options of the command that makes the tables of periods.

use crate::arguments::{Argument, Due, LARGEST, Takes};

/// The recordings of which tables are made.
pub const PERIODS_FROM: Argument = Argument {
    word: "from",
    takes: Takes::Text("RECORDINGS"),
    due: Due::Always,
    help: "The folder of the recordings",
};

/// Where the tables are put.
pub const TABLES_INTO: Argument = Argument {
    word: "into",
    takes: Takes::Text("TABLES"),
    due: Due::Always,
    help: "The folder of the tables, created if it does not exist",
};

/// How long the recorded periods are.
pub const RECORDED_EVERY: Argument = Argument {
    word: "every",
    takes: Takes::Number("SECONDS", 1, LARGEST),
    due: Due::Default("300"),
    help: "The length of a period in seconds, from 1, as it was given to record",
};

/// Whether the command goes on.
pub const FOLLOW: Argument = Argument {
    word: "follow",
    takes: Takes::Nothing(None),
    due: Due::Never,
    help: "Go on for ever, with a look at new periods each second, and at all each ten minutes",
};

/// How long after its end a period is left alone.
pub const GRACE: Argument = Argument {
    word: "grace",
    takes: Takes::Number("SECONDS", 0, LARGEST),
    due: Due::Default("10"),
    help: "How many seconds after its end a period is left alone",
};

/// The plans of the tables.
pub const PLANS: Argument = Argument {
    word: "plan",
    takes: Takes::Texts("P"),
    due: Due::Always,
    help: "The plan of the tables, a TOML file; may be repeated, each with another name",
};

/// For how long recordings are kept after their table is made.
pub const KEEP_RECORDINGS: Argument = Argument {
    word: "keep-recordings",
    takes: Takes::Number("DAYS", 1, LARGEST),
    due: Due::Never,
    help: "Remove the recordings of each period that began so many days ago and has its table of exactly its files",
};

/// How many rows a session may have by itself.
pub const ROWS_OF_A_SESSION: Argument = Argument {
    word: "rows-of-a-session",
    takes: Takes::Number("N", 1, LARGEST),
    due: Due::Default("1000000"),
    help: "How many rows a session may have by itself: if a table has more, those that have more are left out",
};

/// Whose local days and months have tables, too.
pub const DAYS: Argument = Argument {
    word: "days",
    takes: Takes::Text("ZONE"),
    due: Due::Never,
    help: "Merge the tables of each local day and month of this time zone, too, as Europe/Zurich",
};
