//! What the parser is told of each command.

use crate::arguments::Argument;
use crate::bare_arguments::{FAULT, FLOW_FILES, FOLDER, RECEIPT_FILE, TABLE_FILES, WORD};
use crate::listen_options::{
    BUFFER, EVERY, FROM, IDLE, INTO, LISTEN, PEERS, RECORD_IDLE, RECORD_LISTEN, RECORD_SESSIONS,
    RECORD_VERBOSE, REORDER, SESSIONS, TEMPLATES, UDP,
};
use crate::options::{
    AGAIN, DIRECT, DUMP_FORMAT, ELEMENTS, EXPORTER, FILES_FROM, INCOMPLETE, MERGE_INTO,
    MERGE_RECEIPT, MERGE_STRICT, PLAN, PROGRESS, RECEIPT, RECEIPT_OF, RECEIPTS, RING,
    SESSION_TEMPLATES, STRICT, TABLE, TABLE_FORMAT, TIME, VERBOSE, WORKERS, ZONE,
};
use crate::period_options::{
    DAYS, FOLLOW, GRACE, KEEP_RECORDINGS, PERIODS_FROM, PLANS, RECORDED_EVERY, ROWS_OF_A_SESSION,
    TABLES_INTO,
};

/// A command.
#[derive(Clone, Copy)]
pub struct CommandWords {
    /// What it does.
    pub about: &'static str,
    /// What its help says at the end.
    pub example: &'static str,
    /// The options that come first in the help, if another command begins with the same.
    pub shared: &'static [Argument],
    /// Its other arguments, in the order of the help.
    pub own: &'static [Argument],
}

/// The options of the commands that collect.
const COLLECTING: [Argument; 11] = [
    PLAN,
    ELEMENTS,
    WORKERS,
    RING,
    SESSION_TEMPLATES,
    TABLE_FORMAT,
    TIME,
    RECEIPT,
    PROGRESS,
    VERBOSE,
    STRICT,
];

pub const DUMP: CommandWords = CommandWords {
    about: "Reads IPFIX messages from standard input and writes a line for each data record",
    example: "Example:\n  collectd dump < flows.ipfix",
    shared: &[],
    own: &[DUMP_FORMAT, ELEMENTS, SESSION_TEMPLATES, VERBOSE, STRICT],
};

pub const FILES: CommandWords = CommandWords {
    about: "Aggregates the flows in files and writes their table",
    example: "Example:\n  collectd files --plan plan.toml --workers 4 one.ipfix two.ipfix > table.csv",
    shared: &COLLECTING,
    own: &[DIRECT, FILES_FROM, EXPORTER, FLOW_FILES],
};

pub const TCP: CommandWords = CommandWords {
    about: "Accepts connections, aggregates their flows and writes their table when all have ended",
    example: "If a signal stops the program before all sessions have ended, no table is written and the\n\
        flows are lost.\n\n\
        Example:\n  collectd tcp --plan plan.toml --listen 0.0.0.0:4739 --sessions 2 > table.csv",
    shared: &COLLECTING,
    own: &[LISTEN, SESSIONS, IDLE],
};

pub const RECORD: CommandWords = CommandWords {
    about: "Records what exporters send, in a file for each session and period, until it is stopped",
    example: "A finished file is FOLDER/YYYY-MM-DD/HHMMSS/NAME, the beginning of its period in UTC, and can be\n\
        read by itself. Nothing that was written is lost, whatever stops the program: the next start\n\
        finishes what this one left.\n\n\
        Example:\n  collectd record --into recordings --listen 0.0.0.0:4739 --udp 0.0.0.0:4739",
    shared: &[],
    own: &[
        INTO,
        RECORD_LISTEN,
        UDP,
        EVERY,
        RECORD_SESSIONS,
        PEERS,
        REORDER,
        TEMPLATES,
        BUFFER,
        FROM,
        RECORD_IDLE,
        RECORD_VERBOSE,
    ],
};

pub const FINISH: CommandWords = CommandWords {
    about: "Finishes the files that a stopped run of record left unfinished in its folder",
    example: "Each file gets its final name and a line on standard error, as at the next start of record. While a run\n\
        records into the folder, nothing is done.\n\n\
        Example:\n  collectd finish recordings",
    shared: &[],
    own: &[FOLDER],
};

pub const TABLES: CommandWords = CommandWords {
    about: "Makes the tables of the finished periods of a folder of recordings that have none yet",
    example: "A table is TABLES/PLAN/YYYY-MM-DD/HHMMSS.ipfix, the beginning of its period in UTC, and the same as .csv, or as\n\
        .json by --format; with --format ipfix only that. PLAN is the name of the plan's file without .toml. Beside each\n\
        stands its receipt. A period that has a further file is made again. With --days the same is in TABLES/PLAN/days and\n\
        TABLES/PLAN/months, as YYYY-MM-DD and YYYY-MM, merged of the tables of the periods that begin there.\n\n\
        Example:\n  collectd tables --from recordings --into tables --plan plan.toml",
    shared: &[],
    own: &[
        PERIODS_FROM,
        TABLES_INTO,
        PLANS,
        ELEMENTS,
        WORKERS,
        TABLE_FORMAT,
        TIME,
        RECORDED_EVERY,
        GRACE,
        DAYS,
        ROWS_OF_A_SESSION,
        KEEP_RECORDINGS,
        FOLLOW,
        VERBOSE,
        STRICT,
    ],
};

pub const MERGE: CommandWords = CommandWords {
    about: "Adds up tables that were written as IPFIX and writes the table of all of them",
    example: "Example:\n  collectd merge --plan plan.toml one.ipfix two.ipfix > table.csv",
    shared: &[],
    own: &[
        PLAN,
        ELEMENTS,
        TABLE_FORMAT,
        TIME,
        MERGE_INTO,
        ZONE,
        RECEIPTS,
        RECEIPT_OF,
        MERGE_RECEIPT,
        INCOMPLETE,
        VERBOSE,
        MERGE_STRICT,
        TABLE_FILES,
    ],
};

pub const VERIFY: CommandWords = CommandWords {
    about: "Compares a table with its receipt, and with the one that files give",
    example: "Example:\n  collectd verify table.csv.receipt --again one.ipfix two.ipfix",
    shared: &[],
    own: &[TABLE, AGAIN, EXPORTER, ELEMENTS, VERBOSE, RECEIPT_FILE],
};

pub const LIST_ELEMENTS: CommandWords = CommandWords {
    about: "Lists the elements that are known, or those that a word fits: number, type and name",
    example: "Example:\n  collectd elements --elements /usr/share/collectd/elements/iana.csv port",
    shared: &[],
    own: &[ELEMENTS, WORD],
};

pub const EXPLAIN: CommandWords = CommandWords {
    about: "Explains a fault and says what to do about it, or lists all of them",
    example: "Example:\n  collectd explain TemplateChanged",
    shared: &[],
    own: &[FAULT],
};
