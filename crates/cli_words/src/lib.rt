//! The words of the command line: which there are, and what the parser says of those that were given.
#![tactic(auto)]

mod arguments;
mod bare_arguments;
mod chosen;
mod commands;
mod format_words;
mod listen_options;
mod options;
mod period_options;
mod showing;
mod subcommands;
mod words;

pub use arguments::Argument;
pub use bare_arguments::{FAULT, FLOW_FILES, FOLDER, RECEIPT_FILE, TABLE_FILES, WORD};
pub use chosen::Chosen;
pub use format_words::{DUMP_FORMATS, MERGE_INTERVALS, TABLE_FORMATS};
pub use listen_options::{
    BUFFER, EVERY, FROM, IDLE, INTO, LISTEN, PEERS, RECORD_IDLE, RECORD_LISTEN, RECORD_SESSIONS,
    RECORD_VERBOSE, REORDER, SESSIONS, TEMPLATES, UDP,
};
pub use options::{
    AGAIN, DIRECT, DUMP_FORMAT, ELEMENTS, EXPORTER, FILES_FROM, INCOMPLETE, MERGE_INTO, PLAN,
    PROGRESS, RECEIPT, RECEIPT_OF, RECEIPTS, RING, SESSION_TEMPLATES, STRICT, TABLE, TABLE_FORMAT,
    TIME, VERBOSE, WORKERS, ZONE,
};
pub use period_options::{
    DAYS, FOLLOW, GRACE, KEEP_RECORDINGS, PERIODS_FROM, PLANS, RECORDED_EVERY, ROWS_OF_A_SESSION,
    TABLES_INTO,
};
pub use showing::show;
pub use subcommands::Subcommand;
pub use words::{VERSION, matches_of};
